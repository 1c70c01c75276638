//! A writer that takes little at a time, is interrupted, and falters behind so many bytes.
ghost use Rattle.std.specs.Prelude.{Some};

use std::alloc::Global;
use std::io;
use std::io::{ErrorKind, Write};

/// How many bytes a writer takes a write at most, and how often it is interrupted before each.
#[derive(Drop)]
pub(crate) struct Pace {
    pub(crate) most: usize,
    pub(crate) interruptions: u32,
}

/// What a writer does behind so many bytes.
#[derive(Clone, Copy, Debug)]
pub(crate) enum After {
    /// It is full, and each write fails.
    Fails,
    /// One write fails, and then it would go on.
    FailsOnce,
    /// One write takes no byte, and then it would go on.
    TakesNoneOnce,
}

/// Takes bytes at its pace, and falters behind so many.
#[derive(Drop)]
pub(crate) struct Paced<'p> {
    pub(crate) held: Vec<u8>,
    pace: &'p Pace,
    room: usize,
    after: After,
    interrupted: u32,
}

impl<'p> Paced<'p> {
    /// A writer of this pace, with room for so many bytes.
    pub(crate) fn new(alloc: Global, pace: &'p Pace, room: usize, after: After) -> Paced<'p> {
        Paced {
            held: Vec::new(alloc),
            pace,
            room,
            after,
            interrupted: 0,
        }
    }
}

impl Write for Paced<'_> {
    ghost contents = { λ w. Some w.held.items };

    fn write(&mut self, buf: &[u8]) -> io::Result<usize> {
        if self.interrupted < self.pace.interruptions {
            self.interrupted += 1;
            return Err(io::Error::from(ErrorKind::Interrupted));
        }
        self.interrupted = 0;
        if self.room == 0 {
            return match self.after {
                After::Fails => Err(io::Error::from(ErrorKind::Other)),
                After::FailsOnce => {
                    self.room = usize::MAX;
                    Err(io::Error::from(ErrorKind::Other))
                }
                After::TakesNoneOnce => {
                    self.room = usize::MAX;
                    Ok(0)
                }
            };
        }
        let count = buf.len().min(self.pace.most).min(self.room);
        self.held.extend_from_slice(&buf[..count])?;
        self.room -= count;
        Ok(count)
    }

    fn flush(&mut self) -> io::Result<()> {
        Ok(())
    }
}
