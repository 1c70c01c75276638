//! What stands at a place of a line, as a reason tells it.

ghost use Rattle.std.specs.Prelude.{◌≡◌};
ghost use Rattle.std.specs.List.{position_or_len};
ghost use Rattle.sci_logs.specs.Seen.{ends_word, seen_at};

use std::fmt;

/// The word that stands there. One that is longer than a number can be is told by how many bytes it has.
#[derive(Clone, Copy, Debug, PartialEq, Eq, Drop)]
pub struct Seen {
    /// Its first bytes, and zeros behind them.
    pub bytes: [u8; 20],
    /// How many it has in all: none at the end of the line.
    pub count: usize,
}

/// A space, a bracket, and what isn't printed end a word.
fn ends_word(byte: u8) -> bool
    ensures { result ≡ ends_word byte }
{
    byte <= b' ' || byte > b'~' || byte == b'(' || byte == b')'
}

/// How long the first word is.
fn word_length(text: &[u8]) -> usize
    ensures { result ≡ position_or_len ends_word text.now }
{
    text.iter()
        .position(|b| ends_word(*b))
        .unwrap_or(text.len())
}

impl Seen {
    /// The word that this text begins with; or its first byte, where that ends words.
    pub fn new(text: &[u8]) -> Seen
        ensures { result ≡ seen_at text.now }
    {
        let count = word_length(text).max(1).min(text.len());
        let told = count.min(20);
        let mut bytes = [0; 20];
        bytes[..told].copy_from_slice(&text[..told]);
        Seen { bytes, count }
    }
}

impl fmt::Display for Seen {
    fn fmt<W: fmt::Write>(&self, f: &mut fmt::Formatter<W>) -> fmt::Result {
        match self.bytes[0] {
            _ if self.count == 0 => f.write_str("the end"),
            _ if self.count > 20 => write!(f, "{} bytes", self.count),
            b' ' => f.write_str("a space"),
            b'!'..=b'~' => {
                f.write_str("\"")?;
                for byte in self.bytes.iter().take(self.count) {
                    f.write_char(char::from(*byte))?;
                }
                f.write_str("\"")
            }
            byte => write!(f, "byte {byte}"),
        }
    }
}
