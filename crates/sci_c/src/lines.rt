//! A line's content, as it crosses.
ghost use Rattle.std.specs.Prelude.{◌≡◌};
ghost use Rattle.sci_c.specs.Rows.{line_of, line_numbers};

use sci_core::Line;

/// A line's content: eight words, and a stamp that counts its writes.
#[repr(C)]
#[derive(Clone, Copy, Debug, PartialEq, Eq)]
pub struct LineNumbers {
    pub words: [u64; 8],
    pub stamp: u64,
}

/// The content.
pub fn read_line(numbers: &LineNumbers) -> Line
    ensures { result ≡ line_of numbers.now }
{
    Line {
        words: numbers.words,
        stamp: numbers.stamp,
    }
}

/// The content, as it crosses.
pub fn write_line(line: &Line) -> LineNumbers
    ensures { result ≡ line_numbers line.now }
{
    LineNumbers {
        words: line.words,
        stamp: line.stamp,
    }
}
