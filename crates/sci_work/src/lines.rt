//! The lines of a workload, and each node's seats at them.
ghost use Rattle.std.specs.Prelude.{◌≡◌, ◌<◌, ◌≤◌, ◌++◌, ◌∷◌, [], ℕ, length, replicate, IfOk, IfErr, vec_capacity, vec_len};
ghost use Rattle.sci_core.specs.State.{blank};
ghost use Rattle.sci_fine.specs.Banks.{IsLine};
ghost use Rattle.sci_fine.specs.Seats.{AreNew};
ghost use Rattle.sci_fine.specs.Kept.{lists_of};
ghost use Rattle.sci_work.specs.declared.recording.Recording as keeps;
ghost use Rattle.sci_work.specs.Ended.{AreClosedOf, AreKeptOn, AreOfHands, IsClosedOf, IsHistoryOn, lists_in};
ghost use Rattle.sci_work.specs.Hands.{AreIdle, AtEach, IsFewer, IsHandOf, IsIdleSeat, IsNewHand, IsNewSeat, IsSeatIn};

use crate::recording::{ClosedMemory, Recording};
use crate::refusals::WorkRefusal;
use crate::seating::Hand;
use sci_core::{Keeps, Line, OpenRefusal, Receipt};
use sci_fine::{FineLine, Seat};
use sci_port::Finished;
use std::alloc::Global;

// The hands of so many nodes, at no line.
fn empty_hands<K: Keeps>(alloc: Global, nodes: u16) -> Result<Vec<Hand<K>>, WorkRefusal>
    ensures len { IfOk result (λ hands. vec_len hands ≡ nodes) }
    ensures each { IfOk result (λ hands. AtEach (λ k hand. IsNewHand [] k hand.items) hands.items) }
    ensures err { IfErr result (λ e. e ≡ WorkRefusal.OutOfMemory) }
{
    let mut hands = Vec::with_capacity(alloc, usize::from(nodes))?;
    for _ in 0..nodes {
        hands.push_reserved(Vec::new(alloc));
    }
    Ok(hands)
}

// Each node's hand with its seat at one more line.
fn extended<K: Keeps>(
    alloc: Global,
    lines: &[FineLine<K>],
    line: &FineLine<K>,
    hands: Vec<Hand<K>>,
    seats: Vec<Seat<K>>,
) -> Result<Vec<Hand<K>>, WorkRefusal>
    requires count { vec_len seats ≡ vec_len hands }
    requires seats { AtEach (λ k s. IsNewSeat k line.now s) seats.items }
    requires hands { AtEach (λ k hand. IsNewHand lines.now k hand.items) hands.items }
    ensures len { IfOk result (λ all. vec_len all ≡ vec_len hands) }
    ensures each { IfOk result (λ all. AtEach (λ k hand. IsNewHand (lines.now ++ line.now ∷ []) k hand.items) all.items) }
    ensures err { IfErr result (λ e. e ≡ WorkRefusal.OutOfMemory) }
{
    let _ = lines;
    let _ = line;
    let mut all = Vec::with_capacity(alloc, hands.len())?;
    let mut rest = seats.into_iter();
    for one in hands {
        let mut hand = one;
        let Some(seat) = rest.next() else {
            unreachable!()
        };
        let Ok(()) = hand.push(seat) else {
            return Err(WorkRefusal::OutOfMemory);
        };
        all.push_reserved(hand);
    }
    Ok(all)
}

/// A line of zeros, and its seats in the order of the nodes.
pub(crate) fn zeroed<K: Keeps>(
    alloc: Global,
    nodes: u16,
    number: u16,
    keep: K,
) -> Result<(FineLine<K>, Vec<Seat<K>>), WorkRefusal>
    requires nodes { (0 < nodes) × (nodes ≤ 64) }
    requires fits { K.fits keep number (replicate 8 0) }
    ensures line { IfOk result (λ r. IsLine nodes keep number r.0) }
    ensures len { IfOk result (λ r. vec_len r.1 ≡ nodes) }
    ensures opening { IfOk result (λ r. r.0.terms.opening ≡ blank) }
    ensures seats { IfOk result (λ r. AtEach (λ k s. IsIdleSeat keeps.Recording.All k r.0 s) r.1.items) }
    ensures new { IfOk result (λ r. AreNew r.1.items) }
    ensures err { IfErr result (λ e. e ≡ WorkRefusal.OutOfMemory) }
{
    match FineLine::new(alloc, nodes, number, Line::ZERO, keep) {
        Ok(made) => Ok(made),
        Err(OpenRefusal::BadNodes) => unreachable!(),
        Err(OpenRefusal::OutOfMemory) => Err(WorkRefusal::OutOfMemory),
    }
}

/// So many lines of zeros under one fact, numbered from 0, and each node's hand.
pub fn opened<K: Keeps>(
    alloc: Global,
    nodes: u16,
    count: u16,
    keep: K,
) -> Result<(Vec<FineLine<K>>, Vec<Hand<K>>), WorkRefusal>
    requires nodes { (0 < nodes) × (nodes ≤ 64) }
    requires fits { (number : ℕ) → K.fits keep number (replicate 8 0) }
    ensures count { IfOk result (λ r. vec_len r.0 ≡ count) }
    ensures lines { IfOk result (λ r. AtEach (IsLine nodes keep) r.0.items) }
    ensures zeros { IfOk result (λ r. AtEach (λ k l. l.terms.opening ≡ blank) r.0.items) }
    ensures len { IfOk result (λ r. vec_len r.1 ≡ nodes) }
    ensures hands { IfOk result (λ r. AtEach (λ k hand. IsNewHand r.0.items k hand.items) r.1.items) }
    ensures err { IfErr result (λ e. e ≡ WorkRefusal.OutOfMemory) }
{
    let mut lines = Vec::with_capacity(alloc, usize::from(count))?;
    let mut hands = empty_hands(alloc, nodes)?;
    for number in 0..count {
        let (line, seats) = zeroed(alloc, nodes, number, keep)?;
        hands = extended(alloc, &lines, &line, hands, seats)?;
        lines.push_reserved(line);
    }
    Ok((lines, hands))
}

// The hands without their seats at the last line, and those.
fn last_seats<K: Keeps>(
    alloc: Global,
    lines: &[FineLine<K>],
    line: &FineLine<K>,
    recording: Recording,
    hands: Vec<Hand<K>>,
) -> Result<(Vec<Hand<K>>, Vec<Seat<K>>), WorkRefusal>
    requires { AtEach (λ k hand. IsHandOf recording (lines.now ++ line.now ∷ []) k hand.items) hands.items }
    ensures hands { IfOk result (λ r. AtEach (λ k hand. IsHandOf recording lines.now k hand.items) r.0.items) }
    ensures seats { IfOk result (λ r. AreIdle recording line.now r.1.items) }
    ensures fewer { IfOk result (λ r. AtEach (IsFewer hands.items) r.0.items) }
    ensures last { IfOk result (λ r. AtEach (IsSeatIn hands.items (length lines.now)) r.1.items) }
    ensures err { IfErr result (λ e. e ≡ WorkRefusal.OutOfMemory) }
{
    let _ = lines;
    let _ = line;
    let _ = recording;
    let count = hands.len();
    let mut all = Vec::with_capacity(alloc, count)?;
    let mut seats = Vec::with_capacity(alloc, count)?;
    for one in hands {
        let mut hand = one;
        let Some(seat) = hand.pop() else {
            unreachable!()
        };
        seats.push_reserved(seat);
        all.push_reserved(hand);
    }
    Ok((all, seats))
}

/// The line, closed with its seats, and what each kept.
pub(crate) fn finished<K: Keeps>(
    alloc: Global,
    line: FineLine<K>,
    recording: Recording,
    seats: Vec<Seat<K>>,
) -> Result<Finished, WorkRefusal>
    requires { AreIdle recording line seats.items }
    ensures ok { IfOk result (λ one. IsClosedOf K.fits line one.closed) }
    ensures own { IfOk result (λ one. lists_in one.receipts ≡ lists_of seats.items) }
    ensures history { recording ≡ keeps.Recording.All → IfOk result (λ one. IsHistoryOn K.fits line one.closed (lists_in one.receipts)) }
    ensures err { IfErr result (λ e. e ≡ WorkRefusal.OutOfMemory) }
{
    let _ = recording;
    match line.finish(alloc, seats) {
        Ok(made) => Ok(made),
        // 7, and not 9: the seats are the line's own, one per node in order
        Err(_) => Err(WorkRefusal::OutOfMemory),
    }
}

// For how many lines' receipts there is to be room.
fn lists_for(recording: Recording, lines: usize) -> usize
    ensures all { recording ≡ keeps.Recording.All → result ≡ lines }
    ensures nothing { recording ≡ keeps.Recording.Nothing → result ≡ 0 }
{
    match recording {
        Recording::All => lines,
        Recording::Nothing => 0,
    }
}

// The receipts of one more line, where they are kept. There is room for them.
fn keep_lists(receipts: &mut Vec<Vec<Vec<Receipt>>>, recording: Recording, lists: Vec<Vec<Receipt>>)
    requires { recording ≡ keeps.Recording.All → vec_len receipts.old < vec_capacity receipts.old }
    ensures all { recording ≡ keeps.Recording.All → receipts.new.items ≡ receipts.old.items ++ lists ∷ [] }
    ensures room { vec_capacity receipts.new ≡ vec_capacity receipts.old }
    ensures nothing { recording ≡ keeps.Recording.Nothing → receipts.new.items ≡ receipts.old.items }
{
    match recording {
        Recording::All => receipts.push_reserved(lists),
        Recording::Nothing => (),
    }
}

/// The lines, closed, and what their nodes kept.
pub fn closed<K: Keeps>(
    alloc: Global,
    lines: Vec<FineLine<K>>,
    recording: Recording,
    hands: Vec<Hand<K>>,
) -> Result<ClosedMemory, WorkRefusal>
    requires { AtEach (λ k hand. IsHandOf recording lines.items k hand.items) hands.items }
    ensures ok { IfOk result (λ all. AreClosedOf K.fits lines.items all.lines.items) }
    ensures kept { IfOk result (λ all. AreKeptOn recording K.fits lines.items all) }
    ensures own { IfOk result (AreOfHands hands.items) }
    ensures err { IfErr result (λ e. e ≡ WorkRefusal.OutOfMemory) }
{
    let mut all = Vec::with_capacity(alloc, lines.len())?;
    let mut receipts = Vec::with_capacity(alloc, lists_for(recording, lines.len()))?;
    let mut rest = lines;
    let mut hands = hands;
    for _ in 0..rest.len() {
        let Some(line) = rest.pop() else {
            unreachable!()
        };
        let (fewer, seats) = last_seats(alloc, &rest, &line, recording, hands)?;
        hands = fewer;
        let one = finished(alloc, line, recording, seats)?;
        all.push_reserved(one.closed);
        keep_lists(&mut receipts, recording, one.receipts);
    }
    all.reverse();
    receipts.reverse();
    Ok(ClosedMemory {
        lines: all,
        receipts,
    })
}
