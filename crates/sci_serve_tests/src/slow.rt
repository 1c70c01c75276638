//! A reader and a writer that take and give little at a time, are interrupted, and fail.
ghost use Rattle.std.specs.Prelude.{Some};

use std::alloc::Global;
use std::io;
use std::io::{ErrorKind, Read, Write};

/// Gives one byte a read.
#[derive(Drop)]
pub(crate) struct Slow<'a> {
    /// What is left of the text.
    pub rest: &'a [u8],
    /// It has no end: its last byte comes again and again.
    pub is_endless: bool,
    /// Each other read is interrupted.
    pub is_shy: bool,
    /// How often it is interrupted at its end.
    pub interruptions: u32,
    /// It fails in place of this read, and would then go on.
    pub faulty: usize,
    /// Whether it goes on failing.
    pub is_broken: bool,
    pub interrupted: bool,
    pub reads: usize,
}

impl<'a> Slow<'a> {
    /// Gives this text.
    pub(crate) fn new(rest: &'a [u8], is_shy: bool) -> Slow<'a> {
        Slow {
            rest,
            is_endless: false,
            is_shy,
            interruptions: 0,
            faulty: usize::MAX,
            is_broken: false,
            interrupted: false,
            reads: 0,
        }
    }
}

impl Read for Slow<'_> {
    fn read(&mut self, buf: &mut [u8]) -> io::Result<usize> {
        let is_late = self.is_broken && self.reads > self.faulty;
        if is_late || self.reads == self.faulty {
            self.reads = self.reads.saturating_add(1);
            return Err(io::Error::from(ErrorKind::Other));
        }
        self.reads = self.reads.saturating_add(1);
        self.interrupted = self.is_shy && !self.interrupted;
        if self.interrupted {
            return Err(io::Error::from(ErrorKind::Interrupted));
        }
        match self.rest {
            [first, rest @ ..] if !buf.is_empty() => {
                buf[0] = *first;
                if !self.is_endless || !rest.is_empty() {
                    self.rest = rest;
                }
                Ok(1)
            }
            _ if self.interruptions > 0 => {
                self.interruptions -= 1;
                Err(io::Error::from(ErrorKind::Interrupted))
            }
            _ => Ok(0),
        }
    }
}

/// Takes two bytes a write, is interrupted before each, and fails when it is full.
#[derive(Drop)]
pub(crate) struct Narrow {
    pub held: Vec<u8>,
    room: usize,
    interrupted: bool,
}

impl Narrow {
    /// With room for so many bytes.
    pub(crate) fn new(alloc: Global, room: usize) -> Narrow {
        Narrow {
            held: Vec::new(alloc),
            room,
            interrupted: false,
        }
    }
}

impl Write for Narrow {
    ghost contents = { λ w. Some w.held.items };

    fn write(&mut self, buf: &[u8]) -> io::Result<usize> {
        self.interrupted = !self.interrupted;
        if self.interrupted {
            return Err(io::Error::from(ErrorKind::Interrupted));
        }
        if self.room == 0 {
            return Err(io::Error::from(ErrorKind::Other));
        }
        let count = buf.len().min(2).min(self.room);
        self.held.extend_from_slice(&buf[..count])?;
        self.room -= count;
        Ok(count)
    }

    fn flush(&mut self) -> io::Result<()> {
        Ok(())
    }
}
