//! A terminal on which it is shown how far a run is, while lines are written to it too.

ghost use Rattle.std.specs.Prelude.{◌≡◌};
ghost use Rattle.cwr.specs.Steps.Cleared.{plain_unless};

use std::cell::Cell;
use std::io;
use std::io::Write;

/// Which of the standard streams are terminals, and what the environment says of them.
#[derive(Clone, Copy, Debug)]
pub struct Terminals {
    pub input: bool,
    pub output: bool,
    pub error: bool,
    /// How many columns lines have there at most.
    pub columns: usize,
    /// Whether words have colours there.
    pub colours: bool,
}

/// What clears the line on which it is shown.
const CLEAR: &[u8] = b"\r\x1b[K";

/// The terminal on which it is shown.
#[derive(Drop)]
pub(crate) struct Shown<'s, T> {
    terminal: T,
    /// Whether it may stand there now.
    is_shown: &'s Cell<bool>,
}

impl<'s, T> Shown<'s, T> {
    /// Nothing is shown so far.
    pub(crate) fn new(terminal: T, is_shown: &'s Cell<bool>) -> Shown<'s, T> {
        Shown { terminal, is_shown }
    }
}

impl<T: Write> Write for Shown<'_, T> {
    fn write(&mut self, text: &[u8]) -> io::Result<usize> {
        self.is_shown.set(true);
        self.terminal.write(text)
    }

    fn flush(&mut self) -> io::Result<()> {
        self.terminal.flush()
    }
}

/// Standard output. Where that is the terminal, what is shown is cleared before lines are written.
#[derive(Drop)]
pub(crate) struct Cleared<'s, O> {
    output: O,
    is_terminal: bool,
    is_shown: &'s Cell<bool>,
}

impl<'s, O> Cleared<'s, O> {
    ghost use Rattle.cwr.specs.Steps.Cleared.{cleared_output, clears};

    /// Nothing was written so far.
    pub(crate) fn new(output: O, is_terminal: bool, is_shown: &'s Cell<bool>) -> Cleared<'s, O>
        ensures output { cleared_output result ≡ output }
        ensures terminal { clears result ≡ is_terminal }
    {
        Cleared {
            output,
            is_terminal,
            is_shown,
        }
    }
}

impl<'s, O> Cleared<'s, O> {
    ghost use Rattle.cwr.specs.Steps.Cleared.{cleared_output};

    /// The output itself.
    pub(crate) fn into_inner(self) -> O
        ensures { result ≡ cleared_output self.entry }
    {
        self.output
    }
}

impl<O: Write> Write for Cleared<'_, O> {
    // Where nothing is cleared, what is written is what was given.
    ghost contents = { λ it. plain_unless it.is_terminal (O.contents it.output) };

    fn write(&mut self, text: &[u8]) -> io::Result<usize> {
        if self.is_terminal && self.is_shown.get() {
            self.is_shown.set(false);
            self.output.write_all(CLEAR)?;
        }
        self.output.write(text)
    }

    fn flush(&mut self) -> io::Result<()> {
        self.output.flush()
    }
}
