//! What the tests here check, each proved once: an `assert_eq!` costs as much as a test of its own.
ghost use Rattle.std.specs.Prelude.{IsTrue};

use std::fmt::Debug;
use std::process::Abort;

/// Both are the same.
pub(crate) fn same<T: Debug + PartialEq>(rt: &impl Abort, left: &T, right: &T)
    ensures { IsTrue (T.eq left.now right.now) }
{
    assert_eq!(rt; left, right);
}

/// Both are the same, and otherwise the message tells the row.
pub(crate) fn same_at<Row: Debug, T: Debug + PartialEq>(
    rt: &impl Abort,
    row: &Row,
    left: &T,
    right: &T,
)
    ensures { IsTrue (T.eq left.now right.now) }
{
    assert_eq!(rt; left, right, "at {row:?}");
}

/// Both are the same bytes, and otherwise the message tells the row.
pub(crate) fn same_bytes_at<Row: Debug>(rt: &impl Abort, row: &Row, left: &[u8], right: &[u8]) {
    assert!(rt; left == right, "text at {row:?}");
}
