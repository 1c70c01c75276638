//! A thread a node.
ghost use Rattle.std.specs.Prelude.{◌≡◌, ◌↔◌, [], ℕ, ◌<◌, ◌≤◌, true, All, IfOk, IfErr, IsOk, IsTrue, OnOk, length, slice_index_or, vec_capacity, vec_len};
ghost use Rattle.std.specs.PromisedHandle.{KeepsEach};
ghost use Rattle.sci_core.specs.declared.pending.Pending.TheVariants.{Idle};
ghost use Rattle.sci_work.specs.Hands.{AtEach};
ghost use Rattle.sci_work.specs.declared.recording.Recording as recordings;
ghost use Rattle.sci_work.specs.Made.{IsReached};
ghost use Rattle.sci_work.specs.Programs.{ComesInPart, HasWritten, IsShareOf, Suits};
ghost use Rattle.sci_work.specs.Starts.{AreEnded, AreParts, ComesInStart, HaveEnded, IsAnswerOf, IsLowestRefusal, IsNoRefusal, IsPart, IsPartDone};
ghost use Rattle.sci_work.specs.Workers.{keeps_any};
ghost use Rattle.sci_port.specs.KeepsAll.{KeepsAll};

use crate::doors::Door;
use crate::gates::Gate;
use crate::programs::{Program, run};
use crate::recording::Recording;
use crate::refusals::WorkRefusal;
use crate::seating::{Done, Hand};
use sci_cache::{Node, NodeRefusal};
use sci_core::Keeps;
use sci_fine::{FineBank, FineLine};
use sci_port::Bank;
use std::alloc::Global;
use std::sync::Wait;
use std::sync::atomic::{AtomicBool, Ordering};
use std::thread;
use std::thread::{Promise, PromisedHandle, Scope, Threads};

/// What a node's thread promises of its end.
#[derive(Drop)]
struct PartOf<'s, 'a, K: Keeps> {
    lines: &'s [FineLine<K>],
    program: Program<'a>,
    number: u16,
    recording: Recording,
}

impl<'s, 'a, K: Keeps> Promise<Done<K, Vec<u64>>> for PartOf<'s, 'a, K> {
    ghost use Rattle.sci_work.specs.Starts.{IsPartDone};

    ghost kept_by = { λ p r. IsPartDone p.recording p.lines.now p.program p.number r.hand.items r.share };
}

/// A node's thread that runs.
type Running<'s, 'a, K> = PromisedHandle<Done<K, Vec<u64>>, PartOf<'s, 'a, K>>;

// The node, which keeps receipts of its calls or doesn't.
fn node_that_keeps(node: Node, recording: Recording) -> Node
    requires { node.keeps ≡ true }
    ensures { result ≡ record node { keeps = keeps_any recording } }
{
    match recording {
        Recording::All => node,
        Recording::Nothing => node.without_receipts(),
    }
}

/// The program, run by a node that names no line yet.
pub fn share_of<R: Wait, G: Gate, B: Bank>(
    rt: &R,
    alloc: Global,
    door: &mut Door<'_, G>,
    bank: &mut B,
    program: Program<'_>,
    number: u16,
    recording: Recording,
    capacity: u16,
) -> Result<Vec<u64>, WorkRefusal>
    requires idle { (line : ℕ) → B.at_step bank.old line ≡ Idle }
    requires suits { Suits program (B.Keep.fits (B.keep bank.old)) (B.way bank.old).lines number }
    ensures share { IfOk result (λ share. IsShareOf program.entry number share.items) }
    ensures err { IfErr result (ComesInPart program.entry) }
    ensures idle { (line : ℕ) → B.at_step bank.new line ≡ Idle }
    ensures reached { IsReached B.gives B.readies bank.old bank.new }
    ensures kept { recording ≡ recordings.Recording.All → KeepsAll B.gives B.readies B.receipts bank.old bank.new }
    ensures written { recording ≡ recordings.Recording.All → OnOk result (HasWritten program.entry number (B.receipts bank.old) (B.receipts bank.new)) }
{
    match Node::new(alloc, bank.node(), bank.lines(), capacity) {
        Ok(node) => {
            let mut node = node_that_keeps(node, recording);
            run(rt, alloc, door, &mut node, bank, program, number)
        }
        // the capacity was within its limits before any line was opened
        Err(NodeRefusal::OutOfMemory | NodeRefusal::BadCapacity) => Err(WorkRefusal::OutOfMemory),
        Err(
            NodeRefusal::BadWord
            | NodeRefusal::StampsSpent
            | NodeRefusal::BadLine
            | NodeRefusal::CallOpen
            | NodeRefusal::NoCall,
        ) => unreachable!(),
    }
}

// A node's thread.
fn run_node<R: Wait, G: Gate, K: Keeps>(
    rt: &R,
    alloc: Global,
    gate: &G,
    stop: &AtomicBool,
    lines: &[FineLine<K>],
    hand: Hand<K>,
    program: Program<'_>,
    number: u16,
    recording: Recording,
    capacity: u16,
) -> Done<K, Vec<u64>>
    requires { IsPart K.fits recording lines.now program number hand.items }
    ensures { IsPartDone recording lines.now program.entry number result.hand.items result.share }
{
    let mut door = Door::new(gate, stop, number);
    let Ok(mut bank) = FineBank::new(lines, hand) else {
        unreachable!()
    };
    let share = share_of(
        rt, alloc, &mut door, &mut bank, program, number, recording, capacity,
    );
    let share = door.told(share);
    let hand = bank.into_seats();
    Done { hand, share }
}

// Room for so many of each.
fn rooms<A: Drop, B: Drop>(alloc: Global, count: usize) -> Result<(Vec<A>, Vec<B>), WorkRefusal>
    ensures empty { IfOk result (λ r. (r.0.items ≡ []) × (r.1.items ≡ [])) }
    ensures len { IfOk result (λ r. (vec_len r.0 ≡ 0) × (vec_len r.1 ≡ 0)) }
    ensures room { IfOk result (λ r. (count ≤ vec_capacity r.0) × (count ≤ vec_capacity r.1)) }
    ensures err { IfErr result (λ e. e ≡ WorkRefusal.OutOfMemory) }
{
    let first = Vec::with_capacity(alloc, count)?;
    let second = Vec::with_capacity(alloc, count)?;
    Ok((first, second))
}

// Starts each node in a thread of its own, up to the first that can't be started: there the mark is raised.
fn start_each<'s, 'a: 's, E, R: Threads + Wait + Sync, G: Gate, K: Keeps + Send + Sync + 's>(
    rt: &'s R,
    scope: &'s Scope<'s, E>,
    alloc: Global,
    gate: &'s G,
    stop: &'s AtomicBool,
    lines: &'s [FineLine<K>],
    hands: Vec<Hand<K>>,
    program: Program<'a>,
    recording: Recording,
    capacity: u16,
    room: Vec<Running<'s, 'a, K>>,
) -> Vec<Running<'s, 'a, K>>
    requires parts { AreParts K.fits recording lines.now program hands }
    requires room { (vec_len room ≡ 0) × (vec_len hands ≤ vec_capacity room) }
    ensures few { vec_len result ≤ vec_len hands }
    ensures each { (k : ℕ) (d : _) → k < vec_len result → ((slice_index_or result.items k d).promise.lines.now ≡ lines.now) × ((slice_index_or result.items k d).promise.program ≡ program.entry) × ((slice_index_or result.items k d).promise.number ≡ k) × ((slice_index_or result.items k d).promise.recording ≡ recording) }
{
    let mut handles = room;
    let mut number = 0u16;
    for hand in hands {
        let promise = PartOf {
            lines,
            program,
            number,
            recording,
        };
        let started = scope.spawn_with(
            promise,
            move || -> Done<K, Vec<u64>>
                requires { IsPart K.fits recording lines.now program number hand.items }
            {
                run_node(
                    rt, alloc, gate, stop, lines, hand, program, number, recording, capacity,
                )
            },
        );
        let Ok(handle) = started else {
            stop.store(true, Ordering::SeqCst);
            return handles;
        };
        handles.push_reserved(handle);
        number += 1;
    }
    handles
}

// Joins them all. What they end with goes into the room made before they were started.
fn joined<R: Threads, T: Drop, P: Promise<T>>(
    rt: &R,
    handles: Vec<PromisedHandle<T, P>>,
    room: Vec<T>,
) -> Vec<T>
    requires { (vec_len room ≡ 0) × (vec_len handles ≤ vec_capacity room) }
    ensures len { vec_len result ≡ vec_len handles }
    ensures each { KeepsEach P.Promise (vec_len handles) handles.items result.items }
{
    let mut all = room;
    for handle in handles {
        all.push_reserved(handle.join(rt));
    }
    all
}

// Starts the nodes, and joins those that were started. It takes memory only before the first start.
fn start_all<'s, 'a: 's, E, R: Threads + Wait + Sync, G: Gate, K: Keeps + Send + Sync + 's>(
    rt: &'s R,
    scope: &'s Scope<'s, E>,
    alloc: Global,
    gate: &'s G,
    stop: &'s AtomicBool,
    lines: &'s [FineLine<K>],
    hands: Vec<Hand<K>>,
    program: Program<'a>,
    recording: Recording,
    capacity: u16,
) -> Result<Vec<Done<K, Vec<u64>>>, WorkRefusal>
    requires { AreParts K.fits recording lines.now program hands }
    ensures few { IfOk result (λ done. vec_len done ≤ vec_len hands) }
    ensures each { IfOk result (λ done. AtEach (λ k one. IsPartDone recording lines.now program.entry k one.hand.items one.share) done.items) }
    ensures err { IfErr result (λ e. e ≡ WorkRefusal.OutOfMemory) }
{
    let (handles, done) = rooms(alloc, hands.len())?;
    let handles = start_each(
        rt, scope, alloc, gate, stop, lines, hands, program, recording, capacity, handles,
    );
    Ok(joined(rt, handles, done))
}

// The refusal of the first node whose refusal isn't 25, if there is one.
fn first_refusal<K: Keeps>(
    done: &[Done<K, Vec<u64>>],
    program: Program<'_>,
) -> Result<(), WorkRefusal>
    requires { All (λ one. IfErr one.share (ComesInPart program)) done.now }
    ensures comes { IfErr result (ComesInStart program.entry) }
    ensures lowest { IfErr result (λ e. (d : _) → IsLowestRefusal (λ k. (slice_index_or done.now k d).share) (length done.now) e) }
    ensures none { OnOk result ((k : ℕ) (d : _) → k < length done.now → IsNoRefusal (slice_index_or done.now k d).share) }
{
    let _ = program;
    for one in done {
        if let Err(refusal) = &one.share {
            if *refusal != WorkRefusal::Stopped {
                return Err(*refusal);
            }
        }
    }
    Ok(())
}

// All of so many nodes were started, and each has its share.
fn have_ended<K: Keeps>(done: &[Done<K, Vec<u64>>], nodes: usize) -> bool
    ensures all { IsTrue result → nodes ≤ length done.now }
    ensures ended { (d : _) → IsTrue result ↔ HaveEnded (λ k. (slice_index_or done.now k d).share) (length done.now) nodes }
{
    for one in done {
        if one.share.is_err() {
            return false;
        }
    }
    nodes <= done.len()
}

// Whether so many nodes have ended well: else the refusal of the first whose refusal isn't 25. Without one it was the starter that
// raised the mark: 26.
fn check_ended<K: Keeps>(
    done: &[Done<K, Vec<u64>>],
    nodes: usize,
    program: Program<'_>,
) -> Result<(), WorkRefusal>
    requires { All (λ one. IfErr one.share (ComesInPart program)) done.now }
    ensures comes { IfErr result (ComesInStart program.entry) }
    ensures answer { IfErr result (λ e. (d : _) → IsAnswerOf (λ k. (slice_index_or done.now k d).share) (length done.now) nodes e) }
    ensures all { OnOk result (nodes ≤ length done.now) }
    ensures ended { OnOk result ((k : ℕ) (d : _) → k < length done.now → IsOk (slice_index_or done.now k d).share) }
{
    match first_refusal(done, program) {
        Err(refusal) => Err(refusal),
        Ok(()) if have_ended(done, nodes) => Ok(()),
        Ok(()) => Err(WorkRefusal::NoThread),
    }
}

// Each node's seats, and each node's share.
fn part<K: Keeps>(
    alloc: Global,
    lines: &[FineLine<K>],
    program: Program<'_>,
    recording: Recording,
    done: Vec<Done<K, Vec<u64>>>,
) -> Result<(Vec<Hand<K>>, Vec<Vec<u64>>), WorkRefusal>
    requires done { AtEach (λ k one. IsPartDone recording lines.now program k one.hand.items one.share) done.items }
    requires ended { AtEach (λ k one. IsOk one.share) done.items }
    ensures ok { IfOk result (λ r. AreEnded recording lines.now program.entry (vec_len done) r.0 r.1) }
    ensures err { IfErr result (λ e. e ≡ WorkRefusal.OutOfMemory) }
{
    let _ = lines;
    let _ = program;
    let _ = recording;
    let (mut hands, mut shares) = rooms(alloc, done.len())?;
    for one in done {
        let Done { hand, share } = one;
        let Ok(share) = share else { unreachable!() };
        hands.push_reserved(hand);
        shares.push_reserved(share);
    }
    Ok((hands, shares))
}

// What the threads of the nodes ended with, of those that were started.
fn run_each<R: Threads + Wait + Sync, G: Gate, K: Keeps + Send + Sync>(
    rt: &R,
    alloc: Global,
    gate: &G,
    lines: &[FineLine<K>],
    hands: Vec<Hand<K>>,
    program: Program<'_>,
    recording: Recording,
    capacity: u16,
) -> Result<Vec<Done<K, Vec<u64>>>, WorkRefusal>
    requires { AreParts K.fits recording lines.now program hands }
    ensures few { IfOk result (λ done. vec_len done ≤ vec_len hands) }
    ensures each { IfOk result (λ done. AtEach (λ k one. IsPartDone recording lines.now program.entry k one.hand.items one.share) done.items) }
    ensures err { IfErr result (λ e. e ≡ WorkRefusal.OutOfMemory) }
{
    let stop = AtomicBool::new(false);
    let mark = &stop;
    thread::scope(
        thread::scope_env(),
        rt,
        |scope| -> Result<Vec<Done<K, Vec<u64>>>, WorkRefusal>
            requires { AreParts K.fits recording lines.now program hands }
            ensures few { IfOk result (λ done. vec_len done ≤ vec_len hands) }
            ensures each { IfOk result (λ done. AtEach (λ k one. IsPartDone recording lines.entry.now program.entry k one.hand.items one.share) done.items) }
            ensures err { IfErr result (λ e. e ≡ WorkRefusal.OutOfMemory) }
        {
            start_all(
                rt, scope, alloc, gate, mark, lines, hands, program, recording, capacity,
            )
        },
    )
}

/// Runs the program in a thread for each node, over these lines: their seats again, all Idle, and each node's share. The
/// refusals: 7 before the first start, then that of the first node whose refusal isn't 25, then 26 where a node's thread
/// couldn't be started.
pub fn run_all<R: Threads + Wait + Sync, G: Gate, K: Keeps + Send + Sync>(
    rt: &R,
    alloc: Global,
    gate: &G,
    lines: &[FineLine<K>],
    hands: Vec<Hand<K>>,
    program: Program<'_>,
    recording: Recording,
    capacity: u16,
) -> Result<(Vec<Hand<K>>, Vec<Vec<u64>>), WorkRefusal>
    requires { AreParts K.fits recording lines.now program hands }
    ensures ok { IfOk result (λ r. AreEnded recording lines.now program.entry (vec_len hands) r.0 r.1) }
    ensures err { IfErr result (ComesInStart program.entry) }
{
    let nodes = hands.len();
    let done = run_each(rt, alloc, gate, lines, hands, program, recording, capacity)?;
    check_ended(&done, nodes, program)?;
    part(alloc, lines, program, recording, done)
}
