//! A text that is put together from short pieces.

ghost use Rattle.std.specs.Prelude.{◌≡◌, ◌<◌, ◌≤◌, ◌⊎◌, ◌++◌, [], OnOk, ◌+◌, length, take, drop, true, false};
ghost use Rattle.sci_trace.specs.Short.{short_bytes};

use crate::short::Short;
use std::alloc::{AllocError, Global};

/// How many bytes wait at most.
const ROOM: usize = 2_048;

/// How many bytes the place for three pieces has.
const PLACE: usize = 32;

/// A text. Its last pieces wait in a room of its own, where a short one takes a few instructions, and join the front together.
#[derive(Drop)]
pub struct NoteText {
    front: Vec<u8>,
    room: [u8; ROOM],
    // How many bytes wait in the room.
    waiting: usize,
    ghost fits: { waiting ≤ 2048 },
}

// Writes over the first bytes of a room, where the piece fits in.
#[inline(always)]
fn write_first<const N: usize>(room: &mut [u8], piece: &[u8; N]) -> bool
    ensures written { result ≡ true → (N ≤ length room.old) × (room.new ≡ piece.now ++ drop N room.old) }
    ensures kept { result ≡ false → room.new ≡ room.old }
    ensures long { result ≡ false → length room.old < N }
{
    match room.first_chunk_mut::<N>() {
        Some(first) => {
            *first = *piece;
            true
        }
        None => false,
    }
}

// Writes over the bytes from a place on, where the piece fits in.
#[inline(always)]
fn write_at<const N: usize>(room: &mut [u8], at: usize, piece: &[u8; N]) -> bool
    requires { at ≤ length room.old }
    ensures written { result ≡ true → (at + N ≤ length room.old) × (take (at + N) room.new ≡ take at room.old ++ piece.now) }
    ensures kept { result ≡ false → room.new ≡ room.old }
    ensures long { result ≡ false → length room.old < at + N }
    ensures same { length room.new ≡ length room.old }
    ensures front { take at room.new ≡ take at room.old }
{
    write_first(&mut room[at..], piece)
}

// Writes the first `count` bytes of a piece from a place on, where all of the piece fits in. What stands behind them is any.
#[inline(always)]
fn write_part<const N: usize>(room: &mut [u8], at: usize, piece: &[u8; N], count: usize) -> bool
    requires at { at ≤ length room.old }
    requires count { count ≤ N }
    ensures written { result ≡ true → (at + count ≤ length room.old) × (take (at + count) room.new ≡ take at room.old ++ take count piece.now) }
    ensures kept { result ≡ false → room.new ≡ room.old }
    ensures long { result ≡ false → length room.old < at + N }
    ensures same { length room.new ≡ length room.old }
    ensures front { take at room.new ≡ take at room.old }
{
    write_at(room, at, piece)
}

// Writes three pieces over the front of a place, where all of their bytes fit in: one, and the first `count` and `size` bytes of
// two more.
#[inline(always)]
fn write_pieces<const A: usize, const N: usize, const B: usize>(
    place: &mut [u8; PLACE],
    before: &[u8; A],
    between: &[u8; N],
    count: usize,
    after: &[u8; B],
    size: usize,
) -> bool
    requires count { count ≤ N }
    requires size { size ≤ B }
    ensures written { result ≡ true → (A + count + size ≤ 32) × (take (A + count + size) place.new ≡ before.now ++ (take count between.now ++ take size after.now)) }
    ensures long { result ≡ false → 32 < A + N + B }
    ensures same { length place.new ≡ 32 }
{
    write_at(place, 0, before)
        && write_part(place, A, between, count)
        && write_part(place, A + count, after, size)
}

// Writes them over the first bytes of a room that has a place for them.
#[inline(always)]
fn write_front<const A: usize, const N: usize, const B: usize>(
    room: &mut [u8],
    before: &[u8; A],
    between: &[u8; N],
    count: usize,
    after: &[u8; B],
    size: usize,
) -> bool
    requires count { count ≤ N }
    requires size { size ≤ B }
    ensures written { result ≡ true → (A + count + size ≤ length room.old)
        × (take (A + count + size) room.new ≡ before.now ++ (take count between.now ++ take size after.now)) }
    ensures long { result ≡ false → (length room.old < 32) ⊎ (32 < A + N + B) }
    ensures same { length room.new ≡ length room.old }
{
    match room.first_chunk_mut::<PLACE>() {
        Some(place) => write_pieces(place, before, between, count, after, size),
        None => false,
    }
}

// Writes them from a place on.
#[inline(always)]
fn write_behind<const A: usize, const N: usize, const B: usize>(
    room: &mut [u8; ROOM],
    at: usize,
    before: &[u8; A],
    between: &[u8; N],
    count: usize,
    after: &[u8; B],
    size: usize,
) -> bool
    requires at { at ≤ 2048 }
    requires count { count ≤ N }
    requires size { size ≤ B }
    ensures written { result ≡ true → (at + A + count + size ≤ 2048)
        × (take (at + A + count + size) room.new ≡ take at room.old ++ (before.now ++ (take count between.now ++ take size after.now))) }
    ensures long { result ≡ false → (2016 < at) ⊎ (32 < A + N + B) }
    ensures front { take at room.new ≡ take at room.old }
{
    write_front(&mut room[at..], before, between, count, after, size)
}

impl NoteText {
    ghost use Rattle.sci_trace.specs.NoteText.{note_bytes};

    /// No text.
    pub fn new(alloc: Global) -> NoteText
        ensures { note_bytes result ≡ [] }
    {
        NoteText {
            front: Vec::new(alloc),
            room: [0; ROOM],
            waiting: 0,
        }
    }

    /// Drops the text.
    pub(crate) fn clear(&mut self)
        ensures { note_bytes self.new ≡ [] }
    {
        self.front.clear();
        self.waiting = 0;
    }

    // Has what waits join the front, which then is the text.
    fn join(&mut self) -> Result<(), AllocError>
        ensures kept { note_bytes self.new ≡ note_bytes self.old }
        ensures joined { OnOk result (self.new.front.items ≡ note_bytes self.old) }
    {
        self.front.extend_from_slice(&self.room[..self.waiting])?;
        self.waiting = 0;
        Ok(())
    }

    /// The text, but for what waits.
    pub fn front(&self) -> &[u8]
        ensures { result.now ≡ self.now.front.items }
    {
        &self.front
    }

    /// What waits behind it.
    pub fn waiting(&self) -> &[u8]
        ensures { result.now ≡ take self.now.waiting self.now.room }
    {
        &self.room[..self.waiting]
    }

    // Adds a piece behind all that waits.
    #[cold]
    #[inline(never)]
    fn push_behind(&mut self, piece: &[u8]) -> Result<(), AllocError>
        ensures { OnOk result (note_bytes self.new ≡ note_bytes self.old ++ piece.now) }
    {
        self.join()?;
        self.front.extend_from_slice(piece)
    }

    /// Adds a piece of any length.
    pub fn push_bytes(&mut self, piece: &[u8]) -> Result<(), AllocError>
        ensures { OnOk result (note_bytes self.new ≡ note_bytes self.old ++ piece.now) }
    {
        let end = self.waiting + piece.len();
        if piece.len() > ROOM - self.waiting {
            return self.push_behind(piece);
        }
        self.room[self.waiting..end].copy_from_slice(piece);
        self.waiting = end;
        Ok(())
    }

    /// Adds a piece whose length is known.
    #[inline(always)]
    pub fn push<const N: usize>(&mut self, piece: &[u8; N]) -> Result<(), AllocError>
        ensures { OnOk result (note_bytes self.new ≡ note_bytes self.old ++ piece.now) }
    {
        let at = self.waiting;
        if write_at(&mut self.room, at, piece) {
            self.waiting = at + N;
            return Ok(());
        }
        self.push_behind(piece)
    }

    /// Adds a short text. It is written as one piece of 16 bytes, so there is no branch on its length.
    #[inline(always)]
    pub fn push_short(&mut self, short: Short) -> Result<(), AllocError>
        ensures { OnOk result (note_bytes self.new ≡ note_bytes self.old ++ short_bytes short) }
    {
        let at = self.waiting;
        let bytes = short.bytes;
        if write_part(&mut self.room, at, bytes, short.length) {
            self.waiting = at + short.length;
            return Ok(());
        }
        self.push_behind(&bytes[..short.length])
    }

    // Has three pieces wait, where the room has a place for them.
    #[inline(always)]
    fn write_three<const A: usize, const N: usize, const B: usize>(
        &mut self,
        before: &[u8; A],
        between: &[u8; N],
        count: usize,
        after: &[u8; B],
        size: usize,
    ) -> bool
        requires count { count ≤ N }
        requires size { size ≤ B }
        ensures written { result ≡ true → note_bytes self.new ≡ note_bytes self.old ++ (before.now ++ (take count between.now ++ take size after.now)) }
        ensures kept { result ≡ false → note_bytes self.new ≡ note_bytes self.old }
        ensures long { result ≡ false → (2016 < self.old.waiting) ⊎ (32 < A + N + B) }
    {
        let at = self.waiting;
        if write_behind(&mut self.room, at, before, between, count, after, size) {
            self.waiting = at + A + count + size;
            return true;
        }
        false
    }

    // Adds three pieces behind all that waits.
    #[cold]
    #[inline(never)]
    fn push_three_behind(
        &mut self,
        before: &[u8],
        between: &[u8],
        after: &[u8],
    ) -> Result<(), AllocError>
        ensures { OnOk result (note_bytes self.new ≡ note_bytes self.old ++ (before.now ++ (between.now ++ after.now))) }
    {
        self.push_behind(before)?;
        self.push_behind(between)?;
        self.push_behind(after)
    }

    /// Adds three pieces at once: one whose length is known, and the first `count` and `size` bytes of two more.
    #[inline(always)]
    pub(crate) fn push_three<const A: usize, const N: usize, const B: usize>(
        &mut self,
        before: &[u8; A],
        between: &[u8; N],
        count: usize,
        after: &[u8; B],
        size: usize,
    ) -> Result<(), AllocError>
        requires count { count ≤ N }
        requires size { size ≤ B }
        ensures { OnOk result (note_bytes self.new ≡ note_bytes self.old ++ (before.now ++ (take count between.now ++ take size after.now))) }
    {
        if self.write_three(before, between, count, after, size) {
            return Ok(());
        }
        self.push_three_behind(before, &between[..count], &after[..size])
    }
}
