//! What a command reads and writes, and what the system said where that failed.

ghost use Rattle.std.specs.Prelude.{◌≤◌, length};

use std::fmt;
use std::fs::File;
use std::io::{self, Error, ErrorKind, Read, Stdin, Stdout, Write};

/// The system's code of a stream that isn't open.
const CLOSED: i32 = 9;

/// The system's code of a device that fails.
const FAILS: i32 = 5;

/// What the system says of an error.
#[derive(Clone, Copy, Drop)]
pub(crate) enum Said {
    /// In plain words.
    Words(&'static str),
    /// Of one that has none here: its code.
    Code(i32),
}

impl fmt::Display for Said {
    fn fmt<W: fmt::Write>(&self, f: &mut fmt::Formatter<W>) -> fmt::Result {
        match *self {
            Said::Words(words) => f.write_str(words),
            Said::Code(code) => write!(f, "error {code} of the system"),
        }
    }
}

/// What the system says of an error that it names by its code alone.
fn words_of_code(code: Option<i32>) -> Said {
    match code {
        Some(CLOSED) => Said::Words("closed"),
        Some(FAILS) => Said::Words("the device fails"),
        Some(code) => Said::Code(code),
        None => Said::Words("an error of the system"),
    }
}

/// What the system says of an error.
pub(crate) fn words_of(error: &Error) -> Said {
    Said::Words(match error.kind() {
        ErrorKind::NotFound => "no such file",
        ErrorKind::PermissionDenied => "permission denied",
        ErrorKind::IsADirectory => "a folder",
        ErrorKind::NotADirectory => "its path goes through a file",
        ErrorKind::InvalidFilename => "no name of a file",
        ErrorKind::FilesystemLoop => "its links go in a circle",
        ErrorKind::WouldBlock => "it would block",
        ErrorKind::Interrupted => "interrupted again and again",
        ErrorKind::ConnectionReset | ErrorKind::ConnectionAborted => "the other end broke off",
        ErrorKind::BrokenPipe => "nobody reads it",
        ErrorKind::StorageFull => "no space left",
        ErrorKind::QuotaExceeded => "its quota is used up",
        ErrorKind::FileTooLarge => "too large a file",
        _ => return words_of_code(error.raw_os_error()),
    })
}

/// Where bytes come from.
#[derive(Drop)]
enum Source {
    Input(Stdin),
    File(File),
}

impl Read for Source {
    fn read(&mut self, buf: &mut [u8]) -> io::Result<usize> {
        match self {
            Source::Input(stdin) => stdin.read(buf),
            Source::File(file) => file.read(buf),
        }
    }
}

/// What a command reads: FILE, or standard input.
#[derive(Drop)]
pub(crate) struct Input<'a> {
    /// How it is called.
    pub(crate) name: &'a str,
    source: Source,
    /// Whether it has come to its end: it isn't asked again, since a terminal would go on.
    is_ended: bool,
    failed: Option<Said>,
    /// What is read before the source is read on: so many line feeds, and what is left of these bytes.
    feeds: u64,
    front: Vec<u8>,
    at: usize,
    /// How many reads these took that aren't taken again: so many are interrupted behind them, and count as they did.
    spent: usize,
}

impl<'a> Input<'a> {
    /// Opens FILE, or standard input where there is none, or FILE is `-`.
    pub(crate) fn open(rt: &HostRuntime, path: Option<&'a str>) -> io::Result<Input<'a>> {
        let (name, source) = match path {
            None | Some("-") => ("standard input", Source::Input(rt.stdin())),
            Some(path) => (path, Source::File(File::open(rt, path)?)),
        };
        Ok(Input {
            name,
            source,
            is_ended: false,
            failed: None,
            feeds: 0,
            front: Vec::new(rt.alloc()),
            at: 0,
            spent: 0,
        })
    }

    /// Lets so many line feeds and these bytes be read before what follows, in no fewer reads than these.
    pub(crate) fn put_before(&mut self, feeds: u64, front: Vec<u8>, reads: usize) {
        self.feeds = feeds;
        self.front = front;
        self.at = 0;
        self.spent = reads;
    }

    /// Reads of what stands before the source.
    fn read_before(&mut self, buf: &mut [u8]) -> usize
        ensures { result ≤ length buf.new }
    {
        if self.feeds > 0 {
            let count = buf.len().min(self.feeds as usize);
            buf[..count].fill(b'\n');
            self.feeds -= count as u64;
            return count;
        }
        if self.at >= self.front.len() {
            return 0;
        }
        let rest = &self.front[self.at..];
        let count = buf.len().min(rest.len());
        buf[..count].copy_from_slice(&rest[..count]);
        self.at += count;
        count
    }

    /// What the system said as it failed; where it never did, it has no end.
    pub(crate) fn fault(&self) -> Said {
        self.failed.unwrap_or(Said::Words("no end"))
    }
}

impl Read for Input<'_> {
    fn read(&mut self, buf: &mut [u8]) -> io::Result<usize> {
        let count = self.read_before(buf);
        if count > 0 {
            self.spent = self.spent.saturating_sub(1);
            return Ok(count);
        }
        if self.spent > 0 {
            self.spent -= 1;
            return Err(Error::from(ErrorKind::Interrupted));
        }
        if self.is_ended {
            return Ok(0);
        }
        let read = self.source.read(buf);
        self.failed = match &read {
            Ok(count) => {
                self.is_ended = *count == 0;
                None
            }
            Err(error) => Some(words_of(error)),
        };
        read
    }
}

/// Standard output.
#[derive(Drop)]
pub(crate) struct Output {
    stdout: Stdout,
    failed: Option<Said>,
}

impl Output {
    pub(crate) fn new(rt: &HostRuntime) -> Output {
        Output {
            stdout: rt.stdout(),
            failed: None,
        }
    }

    /// What the system said as it failed; where it never did, it took no byte.
    pub(crate) fn fault(&self) -> Said {
        self.failed.unwrap_or(Said::Words("it takes no byte"))
    }
}

impl Write for Output {
    fn write(&mut self, buf: &[u8]) -> io::Result<usize> {
        let written = self.stdout.write(buf);
        if let Err(error) = &written {
            self.failed = Some(words_of(error));
        }
        written
    }

    fn flush(&mut self) -> io::Result<()> {
        Ok(())
    }
}
