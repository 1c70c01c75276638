//! The words of a line.

ghost use Rattle.std.specs.Prelude.{◌≡◌, ◌++◌, ◌∷◌, [], IfOk, OnOk, filter, map, true};
ghost use Rattle.std.specs.List.{list_all};
ghost use Rattle.std.specs.Str.{bytes_eq};
ghost use Rattle.sci_script.specs.Words.{has_bytes, is_blank, is_plain, is_skipped, words_of};

use std::alloc::AllocError;

pub fn is_blank(byte: u8) -> bool
    ensures { result ≡ is_blank byte }
{
    byte == b' ' || byte == b'\t'
}

fn is_empty_line(line: &[u8]) -> bool
    ensures { result ≡ list_all is_blank line.now }
{
    line.iter().all(|b| is_blank(*b))
}

/// A line that counts and says nothing.
pub fn is_skipped(line: &[u8]) -> bool
    ensures { result ≡ is_skipped line.now }
{
    line.first() == Some(&b'#') || is_empty_line(line)
}

/// Whether a word is this name.
#[inline(always)]
pub fn is_word(word: &[u8], name: &[u8]) -> bool
    ensures { result ≡ bytes_eq word.now name.now }
{
    word == name
}

/// Puts a word behind the words, if it has bytes.
fn put_word<'a>(words: &mut Vec<&'a [u8]>, word: &'a [u8]) -> Result<(), AllocError>
    ensures { OnOk result (map (λ w. w.now) words.new.items ≡ map (λ w. w.now) words.old.items ++ filter has_bytes (word.now ∷ [])) }
{
    if !word.is_empty() {
        words.push(word)?;
    }
    Ok(())
}

/// Puts the words of a line into the list that was used for the lines before, and returns whether each of its bytes may stand there.
#[inline(always)]
pub fn split_line<'a>(words: &mut Vec<&'a [u8]>, line: &'a [u8]) -> Result<bool, AllocError>
    ensures plain { IfOk result (λ plain. plain ≡ list_all is_plain line.now) }
    ensures words { IfOk result (λ plain. plain ≡ true → map (λ w. w.now) words.new.items ≡ words_of line.now) }
{
    words.clear();
    let mut start = 0;
    for (at, byte) in line.iter().enumerate() {
        // Most bytes print, so this is asked first.
        if byte.is_ascii_graphic() {
            continue;
        }
        if !is_blank(*byte) {
            return Ok(false);
        }
        put_word(words, &line[start..at])?;
        start = at + 1;
    }
    put_word(words, &line[start..])?;
    Ok(true)
}
