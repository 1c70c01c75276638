//! A writer that takes no memory, for tests that count what the calls take.
ghost use Rattle.std.specs.Prelude.{None};

use std::io;
use std::io::{ErrorKind, Write};

/// A writer that holds up to 256 bytes. It takes one a write, and each other write is interrupted.
#[derive(Drop)]
pub(crate) struct Fixed {
    bytes: [u8; 256],
    pub(crate) length: usize,
    interrupted: bool,
}

impl Write for Fixed {
    ghost contents = { λ _. None };

    fn write(&mut self, buf: &[u8]) -> io::Result<usize> {
        self.interrupted = !self.interrupted;
        if self.interrupted {
            return Err(io::Error::from(ErrorKind::Interrupted));
        }
        match buf {
            [first, ..] if self.length < 256 => {
                self.bytes[self.length] = *first;
                self.length += 1;
                Ok(1)
            }
            _ => Ok(0),
        }
    }

    fn flush(&mut self) -> io::Result<()> {
        Ok(())
    }
}

impl Fixed {
    /// What it holds.
    pub(crate) fn text(&self) -> &[u8] {
        self.bytes.get(..self.length).unwrap_or(&[])
    }
}

/// A writer that holds nothing.
pub(crate) fn empty() -> Fixed {
    Fixed {
        bytes: [0; 256],
        length: 0,
        interrupted: false,
    }
}

/// Whether these are whole lines at the front of the text.
pub(crate) fn is_front(front: &[u8], text: &[u8]) -> bool {
    text.starts_with(front) && (front.is_empty() || front.last() == Some(&b'\n'))
}
