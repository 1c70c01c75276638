//! A writer that takes no memory, for tests that count what the calls take.
ghost use Rattle.std.specs.Prelude.{None};

use std::io;
use std::io::Write;

const FRONT: &[u8; 16] = b"<!DOCTYPE html>\n";

const END: &[u8; 8] = b"</html>\n";

/// A writer that counts bytes, and holds the first 256, and how many at the end are those at the front of END.
#[derive(Drop)]
pub(crate) struct Fixed {
    bytes: [u8; 256],
    pub(crate) length: usize,
    end: usize,
}

impl Write for Fixed {
    ghost contents = { λ _. None };

    fn write(&mut self, buf: &[u8]) -> io::Result<usize> {
        let [byte, ..] = buf else {
            return Ok(0);
        };
        if self.length < 256 {
            self.bytes[self.length] = *byte;
        }
        self.length = self.length.saturating_add(1);
        self.end = if END.get(self.end) == Some(byte) {
            self.end.saturating_add(1)
        } else {
            usize::from(*byte == b'<')
        };
        Ok(1)
    }

    fn flush(&mut self) -> io::Result<()> {
        Ok(())
    }
}

impl Fixed {
    /// What it holds.
    pub(crate) fn text(&self) -> &[u8] {
        self.bytes.get(..self.length).unwrap_or(&self.bytes)
    }

    /// Whether it was given a whole page.
    pub(crate) fn is_page(&self) -> bool {
        self.text().starts_with(FRONT) && self.end == END.len()
    }
}

/// A writer that holds nothing.
pub(crate) fn empty() -> Fixed {
    Fixed {
        bytes: [0; 256],
        length: 0,
        end: 0,
    }
}

/// Whether these are whole lines at the front of the text.
pub(crate) fn is_front(front: &[u8], text: &[u8]) -> bool {
    text.starts_with(front) && (front.is_empty() || front.last() == Some(&b'\n'))
}
