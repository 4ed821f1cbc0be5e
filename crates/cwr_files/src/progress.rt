//! How far a long run is, on standard error.

ghost use Rattle.std.specs.Prelude.{◌≡◌};
ghost use Rattle.cwr_files.specs.Format.Written.{is_whole, paced_writer, times_failed, writer_in};

use crate::faults::Name;
use crate::outputs::Written;
use memchr::memchr_iter;
use std::io;
use std::io::Write;
use std::time::{Clock, Duration};

/// The milliseconds before anything is shown.
const FIRST: u64 = 1_000;

/// Those between two times that it is shown.
const BETWEEN: u64 = 500;

/// How far the reading of inputs is. From the second second of each on a line shows it, at most twice a second; it is gone at its end.
#[derive(Drop)]
pub struct Progress<'p, R, T> {
    clock: &'p R,
    terminal: T,
    /// Whether it is shown at all.
    wanted: bool,
    /// Whether standard input is a terminal.
    is_typed: bool,
    /// The bytes of the input, where that is a file.
    size: Option<u64>,
    /// The lines that were read.
    lines: u64,
    /// When it is shown next.
    next: Option<Duration>,
    /// Whether it stands there now.
    shown: bool,
}

/// What follows the reading of an input.
pub trait Pace {
    /// Standard input is to be read.
    fn wait(&mut self);

    /// An input begins, which has so many bytes where that is known.
    fn begin(&mut self, size: Option<u64>);

    /// These bytes of the input of that name were read, and so many in all.
    fn advance(&mut self, name: Name<'_>, read: &[u8], bytes: u64);

    /// The input is read no further.
    fn end(&mut self);
}

impl<'p, R: Clock, T: Write> Progress<'p, R, T> {
    /// Nothing was read so far. `is_typed` says whether standard input is a terminal.
    pub fn new(clock: &'p R, terminal: T, wanted: bool, is_typed: bool) -> Progress<'p, R, T> {
        Progress {
            clock,
            terminal,
            wanted,
            is_typed,
            size: None,
            lines: 0,
            next: None,
            shown: false,
        }
    }

    /// Shows how far it is, after so many bytes. What the terminal doesn't take is lost.
    fn show(&mut self, name: Name<'_>, bytes: u64) {
        let lines = self.lines;
        self.shown = true;
        let _ = match self.size {
            Some(size) => {
                let share = (bytes / (size / 100).max(1)).min(100);
                write!(self.terminal, "\r{name}: {share} %, {lines} records\x1b[K")
            }
            None => write!(
                self.terminal,
                "\r{name}: {bytes} bytes, {lines} records\x1b[K"
            ),
        };
        let _ = self.terminal.flush();
    }

    /// The time so many milliseconds from now, where the system tells the time.
    fn after(&self, milliseconds: u64) -> Option<Duration> {
        let now = self.clock.monotonic().ok()?;
        now.checked_add(Duration::from_millis(milliseconds))
    }
}

impl<R: Clock, T: Write> Pace for Progress<'_, R, T> {
    fn wait(&mut self) {
        if self.is_typed {
            // What standard error doesn't take is lost.
            let _ = writeln!(
                self.terminal,
                "cwr: waiting for standard input, which Ctrl-D ends at the start of a line"
            );
        }
    }

    fn begin(&mut self, size: Option<u64>) {
        if self.wanted {
            self.size = size;
            self.lines = 0;
            self.next = self.after(FIRST);
        }
    }

    fn advance(&mut self, name: Name<'_>, read: &[u8], bytes: u64) {
        if !self.wanted {
            return;
        }
        let count = memchr_iter(b'\n', read).count() as u64;
        self.lines = self.lines.saturating_add(count);
        if let (Some(next), Ok(now)) = (self.next, self.clock.monotonic()) {
            if next <= now {
                self.show(name, bytes);
                self.next = self.after(BETWEEN);
            }
        }
    }

    fn end(&mut self) {
        if self.shown {
            self.shown = false;
            let _ = write!(self.terminal, "\r\x1b[K");
            let _ = self.terminal.flush();
        }
    }
}

impl<P: Pace> Pace for &mut P {
    fn wait(&mut self) {
        (**self).wait();
    }

    fn begin(&mut self, size: Option<u64>) {
        (**self).begin(size);
    }

    fn advance(&mut self, name: Name<'_>, read: &[u8], bytes: u64) {
        (**self).advance(name, read, bytes);
    }

    fn end(&mut self) {
        (**self).end();
    }
}

/// No pace: what is read isn't followed.
#[derive(Clone, Copy, Debug)]
pub struct Unwatched;

impl Pace for Unwatched {
    fn wait(&mut self) {}

    fn begin(&mut self, _size: Option<u64>) {}

    fn advance(&mut self, _name: Name<'_>, _read: &[u8], _bytes: u64) {}

    fn end(&mut self) {}
}

/// A writer whose pace is followed.
#[derive(Drop)]
pub struct Paced<'a, O, P> {
    output: O,
    name: Name<'a>,
    /// How many bytes were written.
    bytes: u64,
    pace: P,
}

impl<'a, O, P: Pace> Paced<'a, O, P> {
    /// A writer that was given nothing so far.
    pub fn new(output: O, name: Name<'a>, mut pace: P) -> Paced<'a, O, P>
        ensures { paced_writer result ≡ output }
    {
        pace.begin(None);
        Paced {
            output,
            name,
            bytes: 0,
            pace,
        }
    }
}

impl<'a, O, P: Drop> Paced<'a, O, P> {
    /// The writer itself.
    fn into_inner(self) -> O
        ensures { result ≡ paced_writer self.entry }
    {
        self.output
    }
}

impl<'a, O, P: Drop> Written<Paced<'a, O, P>> {
    /// The writer that was paced.
    pub fn unpaced(self) -> Written<O>
        ensures writer { writer_in result ≡ paced_writer (writer_in self.entry) }
        ensures whole { is_whole result ≡ is_whole self.entry }
        ensures failures { times_failed result ≡ times_failed self.entry }
    {
        Written {
            writer: self.writer.into_inner(),
            failures: self.failures,
            is_whole: self.is_whole,
        }
    }
}

impl<O: Write, P: Pace> Write for Paced<'_, O, P> {
    ghost contents = { λ it. O.contents it.output };

    fn write(&mut self, text: &[u8]) -> io::Result<usize> {
        let count = self.output.write(text)?;
        self.bytes = self.bytes.saturating_add(count as u64);
        self.pace.advance(self.name, &text[..count], self.bytes);
        Ok(count)
    }

    fn flush(&mut self) -> io::Result<()> {
        self.output.flush()
    }
}
