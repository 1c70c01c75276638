//! Each node's seats at the lines of a workload.
ghost use Rattle.std.specs.Prelude.{◌≡◌, ◌∷◌, [], IfOk, IfErr, vec_len};
ghost use Rattle.sci_work.specs.declared.recording.Recording as keeps;
ghost use Rattle.sci_work.specs.Hands.{AreIdle, AtEach, HoldEach, IsHandOf, IsIdleSeat};

use crate::refusals::WorkRefusal;
use sci_core::Keeps;
use sci_fine::{FineLine, Seat};
use std::alloc::Global;

/// A node's seats, one at each line, in order.
pub type Hand<K> = Vec<Seat<K>>;

/// What a node's thread ends with: its seats, all Idle, and its share.
#[derive(Drop)]
pub struct Done<K: Keeps, S> {
    pub hand: Hand<K>,
    pub share: Result<S, WorkRefusal>,
}

// A hand of one seat.
fn hand_of<K: Keeps>(alloc: Global, seat: Seat<K>) -> Result<Hand<K>, WorkRefusal>
    ensures err { IfErr result (λ e. e ≡ WorkRefusal.OutOfMemory) }
    ensures ok { IfOk result (λ hand. hand.items ≡ seat ∷ []) }
{
    let mut hand = Vec::new(alloc);
    let Ok(()) = hand.push(seat) else {
        return Err(WorkRefusal::OutOfMemory);
    };
    Ok(hand)
}

// The seat of a hand at one line.
fn seat_of<K: Keeps>(hand: Hand<K>) -> Seat<K>
    requires { vec_len hand ≡ 1 }
    ensures { hand.items ≡ result ∷ [] }
{
    let mut seats = hand;
    let Some(seat) = seats.pop() else {
        unreachable!()
    };
    seat
}

/// Each node's seat at the one line.
pub fn dealt<K: Keeps>(
    alloc: Global,
    line: &FineLine<K>,
    seats: Vec<Seat<K>>,
) -> Result<Vec<Hand<K>>, WorkRefusal>
    requires { AtEach (λ k s. IsIdleSeat keeps.Recording.All k line.now s) seats.items }
    ensures err { IfErr result (λ e. e ≡ WorkRefusal.OutOfMemory) }
    ensures len { IfOk result (λ hands. vec_len hands ≡ vec_len seats) }
    ensures each { IfOk result (λ hands. AtEach (λ k hand. IsHandOf keeps.Recording.All (line.now ∷ []) k hand.items) hands.items) }
    ensures hold { IfOk result (λ hands. HoldEach hands.items seats.items) }
{
    let _ = line;
    let mut hands = Vec::new(alloc);
    for seat in seats {
        let Ok(hand) = hand_of(alloc, seat) else {
            return Err(WorkRefusal::OutOfMemory);
        };
        let Ok(()) = hands.push(hand) else {
            return Err(WorkRefusal::OutOfMemory);
        };
    }
    Ok(hands)
}

/// The seats at the one line, in the order of the nodes.
pub fn gathered<K: Keeps>(
    alloc: Global,
    line: &FineLine<K>,
    hands: Vec<Hand<K>>,
) -> Result<Vec<Seat<K>>, WorkRefusal>
    requires { AtEach (λ k hand. IsHandOf keeps.Recording.All (line.now ∷ []) k hand.items) hands.items }
    ensures err { IfErr result (λ e. e ≡ WorkRefusal.OutOfMemory) }
    ensures ok { IfOk result (λ seats. AreIdle keeps.Recording.All line.now seats.items) }
    ensures held { IfOk result (λ seats. HoldEach hands.items seats.items) }
{
    let _ = line;
    let mut seats = Vec::new(alloc);
    for hand in hands {
        let Ok(()) = seats.push(seat_of(hand)) else {
            return Err(WorkRefusal::OutOfMemory);
        };
    }
    Ok(seats)
}
