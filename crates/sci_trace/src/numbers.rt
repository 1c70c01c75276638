//! Numbers in decimal digits.

ghost use Rattle.std.specs.Prelude.{◌≡◌, ◌<◌, ◌≤◌, ◌+◌, ◌++◌, OnOk, codes, take};
ghost use Rattle.sci_trace.specs.NoteText.{note_bytes};
ghost use Rattle.sci_trace.specs.Short.{short_bytes};
ghost use Rattle.std.specs.Fmt.{decimal};

use crate::note_text::NoteText;
use crate::short::Short;
use itoa::Buffer;
use std::alloc::AllocError;

/// The numbers below a hundred, each with spaces behind it.
static NUMBERS: [[u8; 4]; 100] = [
    *b"0   ", *b"1   ", *b"2   ", *b"3   ", *b"4   ", *b"5   ", *b"6   ", *b"7   ", *b"8   ",
    *b"9   ", *b"10  ", *b"11  ", *b"12  ", *b"13  ", *b"14  ", *b"15  ", *b"16  ", *b"17  ",
    *b"18  ", *b"19  ", *b"20  ", *b"21  ", *b"22  ", *b"23  ", *b"24  ", *b"25  ", *b"26  ",
    *b"27  ", *b"28  ", *b"29  ", *b"30  ", *b"31  ", *b"32  ", *b"33  ", *b"34  ", *b"35  ",
    *b"36  ", *b"37  ", *b"38  ", *b"39  ", *b"40  ", *b"41  ", *b"42  ", *b"43  ", *b"44  ",
    *b"45  ", *b"46  ", *b"47  ", *b"48  ", *b"49  ", *b"50  ", *b"51  ", *b"52  ", *b"53  ",
    *b"54  ", *b"55  ", *b"56  ", *b"57  ", *b"58  ", *b"59  ", *b"60  ", *b"61  ", *b"62  ",
    *b"63  ", *b"64  ", *b"65  ", *b"66  ", *b"67  ", *b"68  ", *b"69  ", *b"70  ", *b"71  ",
    *b"72  ", *b"73  ", *b"74  ", *b"75  ", *b"76  ", *b"77  ", *b"78  ", *b"79  ", *b"80  ",
    *b"81  ", *b"82  ", *b"83  ", *b"84  ", *b"85  ", *b"86  ", *b"87  ", *b"88  ", *b"89  ",
    *b"90  ", *b"91  ", *b"92  ", *b"93  ", *b"94  ", *b"95  ", *b"96  ", *b"97  ", *b"98  ",
    *b"99  ",
];

/// A number below a hundred: so many bytes of these, and with one more a space behind it.
#[inline(always)]
fn short_number(number: u64) -> ([u8; 4], usize)
    requires { number < 100 }
    ensures count { result.1 ≤ 2 }
    ensures digits { take result.1 result.0 ≡ decimal number }
    ensures spaced { take (result.1 + 1) result.0 ≡ decimal number ++ codes " " }
{
    let digits = NUMBERS[number as usize];
    if number < 10 {
        return (digits, 1);
    }
    (digits, 2)
}

/// A number of any size.
fn push_digits(text: &mut NoteText, number: u64) -> Result<(), AllocError>
    ensures { OnOk result (note_bytes text.new ≡ note_bytes text.old ++ decimal number) }
{
    text.push_bytes(Buffer::new().format(number).as_bytes())
}

/// A number between two pieces. Each line of a turn has some, and `write!` takes several times as long; most are below a hundred,
/// and come from a table without a branch on their length.
#[inline(always)]
pub fn push_between<const A: usize, const B: usize>(
    text: &mut NoteText,
    before: &[u8; A],
    number: u64,
    after: &[u8; B],
) -> Result<(), AllocError>
    ensures { OnOk result (note_bytes text.new ≡ note_bytes text.old ++ (before.now ++ (decimal number ++ after.now))) }
{
    if number < 100 {
        let (digits, count) = short_number(number);
        return text.push_three(before, &digits, count, after, B);
    }
    text.push(before)?;
    push_digits(text, number)?;
    text.push(after)
}

/// A number behind a piece, a space, and a name.
#[inline(always)]
pub(crate) fn push_named<const A: usize>(
    text: &mut NoteText,
    before: &[u8; A],
    number: u64,
    name: Short,
) -> Result<(), AllocError>
    ensures { OnOk result (note_bytes text.new ≡ note_bytes text.old ++ (before.now ++ ((decimal number ++ codes " ") ++ short_bytes name))) }
{
    if number < 100 {
        let (digits, count) = short_number(number);
        let bytes = name.bytes;
        return text.push_three(before, &digits, count + 1, bytes, name.length);
    }
    text.push(before)?;
    push_digits(text, number)?;
    text.push(b" ")?;
    text.push_short(name)
}
