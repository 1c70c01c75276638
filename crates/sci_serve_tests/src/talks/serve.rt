//! Talks over readers and writers: what is said, and what is answered, worked out by hand.

mod growths;

use crate::checks::{same, same_bytes_at};
use sci_serve::{SimFault, serve_talk};
use std::alloc::Global;
use std::io;
use std::io::{ErrorKind, Read, Write};
use std::test::Fail;

/// Gives one byte a read; each other read is interrupted.
#[derive(Drop)]
struct OneByte<'a> {
    rest: &'a [u8],
    interrupted: bool,
}

impl Read for OneByte<'_> {
    fn read(&mut self, buf: &mut [u8]) -> io::Result<usize> {
        self.interrupted = !self.interrupted;
        if self.interrupted {
            return Err(io::Error::from(ErrorKind::Interrupted));
        }
        match self.rest {
            [first, rest @ ..] if !buf.is_empty() => {
                buf[0] = *first;
                self.rest = rest;
                Ok(1)
            }
            _ => Ok(0),
        }
    }
}

/// Gives these bytes, and then fails.
#[derive(Drop)]
struct Broken<'a> {
    rest: &'a [u8],
}

impl Read for Broken<'_> {
    fn read(&mut self, buf: &mut [u8]) -> io::Result<usize> {
        match self.rest {
            [first, rest @ ..] if !buf.is_empty() => {
                buf[0] = *first;
                self.rest = rest;
                Ok(1)
            }
            _ => Err(io::Error::from(ErrorKind::Other)),
        }
    }
}

/// A writer with so much room, and how much of what it holds was flushed.
#[derive(Drop)]
struct Narrow {
    held: Vec<u8>,
    room: usize,
    flushed: usize,
}

impl Write for Narrow {
    fn write(&mut self, buf: &[u8]) -> io::Result<usize> {
        let count = buf.len().min(self.room);
        self.held.extend_from_slice(&buf[..count])?;
        self.room -= count;
        Ok(count)
    }

    fn flush(&mut self) -> io::Result<()> {
        self.flushed = self.held.len();
        Ok(())
    }
}

fn with_room(alloc: Global, room: usize) -> Narrow {
    Narrow {
        held: Vec::new(alloc),
        room,
        flushed: 0,
    }
}

/// What is said, and what is answered.
type Case = (&'static str, &'static str);

const CASES: [Case; 15] = [
    // as a script, with `ok` behind each command
    (
        "memory 2 1\nstore 0 0 0 7\ndone 0\nload 1 0 0\ndone 1\nlist 0\n",
        "ok\nok\nnode 0 wrote stamp 1\nok\nok\nnode 1 read 7 stamp 1\nok\n\
         line 0 GONE 1: 1 HEAD_DIRTY, 0 TAIL_VALID\nok\n",
    ),
    // comments, blanks, and nothing
    ("", ""),
    ("# a comment\n\n \t\nmemory 1 1\n", "ok\nok\nok\nok\n"),
    // a line feed, a carriage return, and neither
    ("memory 1 1\r\nlist 0", "ok\nline 0 HOME\nok\n"),
    ("memory 1 1\nlist 0\r", "ok\nrefused 16\n"),
    // nothing but `memory` comes first
    (
        "list 0\ncapacity 1\nopen 0 1 2 0 0 0 0 0 0 0\nmemory 0 1\nmemory 1\nmemory 1 1\nlist 0\n",
        "refused 16\nrefused 16\nrefused 16\nrefused 17\nrefused 16\nok\nline 0 HOME\nok\n",
    ),
    // a capacity stands directly behind it, once
    (
        "memory 1 2\ncapacity 0\ncapacity 1\ncapacity 2\nload 0 0 0\ndone 0\nload 0 1 0\ndone 0\nresidents 0\ncapacity 1\n",
        "ok\nrefused 17\nok\nrefused 16\nok\nnode 0 read 0 stamp 0\nok\nok\nnode 0 read 0 stamp 0\nok\nnode 0 residents 1\nok\nrefused 16\n",
    ),
    // the first command that isn't refused opens the memory
    (
        "memory 1 2\nopen 0 1 2 0 0 0 0 0 0 0\ncapacity 1\ndone 0\nlist 2\nopen 1 3 4 0 0 0 0 0 0 0\nload 0 1 0\n\
         open 1 5 6 0 0 0 0 0 0 0\nmemory 1 2\ndone 0\n",
        "ok\nok\nrefused 16\nrefused 16\nrefused 17\nok\nok\nrefused 16\nrefused 16\nnode 0 read 4 stamp 3\nok\n",
    ),
    // until then it may be said again, and then nothing said before counts
    (
        "memory 2 2\ncapacity 1\nopen 0 1 2 0 0 0 0 0 0 0\nlist 2\nmemory 0 1\nmemory 1 1\nlist 1\ncapacity 2\nload 0 0 0\ndone 0\nmemory 2 2\n",
        "ok\nok\nok\nrefused 17\nrefused 17\nok\nrefused 17\nok\nok\nnode 0 read 0 stamp 0\nok\nrefused 16\n",
    ),
    // the last opening of a line counts
    (
        "memory 1 1\nopen 0 1 2 0 0 0 0 0 0 0\nopen 0 3 4 0 0 0 0 0 0 0\nopen 0 5\nload 0 0 0\ndone 0\n",
        "ok\nok\nok\nrefused 16\nok\nnode 0 read 4 stamp 3\nok\n",
    ),
    // a call begun while it is open, and turns without a call
    (
        "memory 1 1\nload 0 0 0\nstore 0 0 0 5\ndone 0\ndone 0\nturn 0\nlist 0\n",
        "ok\nok\nrefused 16\nnode 0 read 0 stamp 0\nok\nrefused 16\nrefused 16\nline 0 FRESH 0: 0 ONLY_FRESH\nok\n",
    ),
    // faulty numbers and words
    (
        "memory 1 1\nlist 1\nlist x\nlist\nload 0 0 8\ntag 0 0\n",
        "ok\nrefused 17\nrefused 17\nrefused 16\nrefused 17\ntag 0 0 INVALID forw - back -\nok\n",
    ),
    // a call that waits for another node's
    (
        "memory 2 1\nstore 0 0 0 5\ndone 0\nstore 0 0 0 6\nturn 0\nload 1 0 0\ndone 1\ndone 0\ndone 1\n",
        "ok\nok\nnode 0 wrote stamp 1\nok\nok\nok\nok\nrefused 18\nnode 0 wrote stamp 2\nok\nnode 1 read 6 stamp 2\nok\n",
    ),
    // the last stamp
    (
        "memory 1 1\nopen 0 18446744073709551615 0 0 0 0 0 0 0 0\nstore 0 0 0 5\ndone 0\nlist 0\n",
        "ok\nok\nok\nnode 0 refused 11\nok\nline 0 GONE 0: 0 ONLY_DIRTY\nok\n",
    ),
    // turns that print nothing, and one that waits
    (
        "memory 2 1\nload 0 0 0\nturn 0\nturn 0\nload 1 0 0\nturn 1\nturn 1\n",
        "ok\nok\nok\nok\nok\nok\nnode 1 waits\nok\n",
    ),
];

#[test]
fn answers_each_line(rt: HostRuntime) {
    for (said, answered) in CASES {
        let mut out = Vec::new(rt.alloc());
        let end = serve_talk(rt.alloc(), &mut said.as_bytes(), &mut out);
        same(&rt, &end.err(), &None);
        same_bytes_at(&rt, &said, &out, answered.as_bytes());
    }
}

#[test]
fn one_byte_at_a_time(rt: HostRuntime) {
    for (said, answered) in CASES {
        let mut reader = OneByte {
            rest: said.as_bytes(),
            interrupted: false,
        };
        let mut out = with_room(rt.alloc(), 1000);
        let end = serve_talk(rt.alloc(), &mut reader, &mut out);
        same(&rt, &end.err(), &None);
        same_bytes_at(&rt, &said, &out.held, answered.as_bytes());
        same(&rt, &out.flushed, &answered.len());
    }
}

/// A line that has not ended is not answered where a read fails.
#[test]
fn readers_that_fail(rt: HostRuntime) {
    let mut out = Vec::new(rt.alloc());
    let mut reader = Broken {
        rest: b"memory 1 1\nlist 0\nlist",
    };
    let end = serve_talk(rt.alloc(), &mut reader, &mut out);
    same(&rt, &end.err(), &Some(SimFault::CannotRead));
    same_bytes_at(&rt, &"the answers", &out, b"ok\nline 0 HOME\nok\n");
}

/// A writer that fills holds a front of the answers.
#[test]
fn writers_that_fill(rt: HostRuntime) {
    let said = "memory 1 1\nlist 0\nlist 1\nlist 0";
    let answered = b"ok\nline 0 HOME\nok\nrefused 17\nline 0 HOME\nok\n";
    for room in 0..answered.len() {
        let mut out = with_room(rt.alloc(), room);
        let end = serve_talk(rt.alloc(), &mut said.as_bytes(), &mut out);
        same(&rt, &end.err(), &Some(SimFault::CannotWrite));
        same_bytes_at(&rt, &room, &out.held, answered.get(..room).unwrap_or(b""));
    }
}

/// A line of as many bytes as a script may have is said, with or without a carriage return; a longer one is refused.
#[test]
fn long_lines(rt: HostRuntime) -> Result<(), Fail> {
    for (length, end, answered) in [
        (1_048_576, "\nmemory 1 1\n", "ok\nok\n"),
        (1_048_576, "\r\nmemory 1 1\n", "ok\nok\n"),
        (1_048_577, "\nmemory 1 1\n", "refused 16\nok\n"),
        (1_048_577, "\r\nmemory 1 1\n", "refused 16\nok\n"),
        (3_000_000, "\nmemory 1 1\n", "refused 16\nok\n"),
        (1_048_577, "", "refused 16\n"),
    ] {
        let mut said = vec![in rt.alloc(); b'#'; length]?;
        said.extend_from_slice(end.as_bytes())?;
        let mut out = Vec::new(rt.alloc());
        let ended = serve_talk(rt.alloc(), &mut said.as_slice(), &mut out);
        same(&rt, &ended.err(), &None);
        same_bytes_at(&rt, &(length, end), &out, answered.as_bytes());
    }
    Ok(())
}
