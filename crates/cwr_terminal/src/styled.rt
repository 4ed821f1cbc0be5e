//! An output for a terminal.

ghost use Rattle.std.specs.Prelude.{◌≡◌, ◌≤◌, [], ◌∷◌, ◌++◌, length, take, true, Some, is_some, IfOk, OnOk};
ghost use Rattle.std.specs.Io.{WritesAtMost};
ghost use Rattle.std.specs.Io.KnownBytes.{Appends, Keeps, WriteAppends};
ghost use Rattle.cwr_terminal.specs.Format.Shown.{HasNoLineFeed};
ghost use Rattle.cwr_terminal.specs.Steps.Held.{HoldsNothing, Shows, Takes, output_of, plain_contents, style_of, to_show};

use crate::shown_lines::push_line;
use crate::styles::{LONGEST, Made, Style};
use arrayvec::ArrayVec;
use memchr::memchr;
use std::io;
use std::io::Write;

/// The byte that ends a line.
const LINE_FEED: u8 = b'\n';

/// An output to which lines are written as a terminal shows them. A line is written when it is whole, or at a flush.
#[derive(Drop)]
pub struct Styled<W> {
    output: W,
    /// How lines are shown; without it all is handed on as it is.
    style: Option<Style>,
    /// What was given of a line that isn't whole yet.
    line: ArrayVec<u8, LONGEST>,
    /// Whether the line is too long for that, so that its start was handed on and its rest is.
    passes: bool,
}

impl<W> Styled<W> {
    /// Nothing was given so far.
    pub fn new(output: W, style: Option<Style>) -> Styled<W>
        ensures output { output_of result ≡ output }
        ensures style { style_of result ≡ style }
        ensures holds { HoldsNothing result }
    {
        Styled {
            output,
            style,
            line: ArrayVec::new(),
            passes: false,
        }
    }

    /// The output itself. What is held is lost.
    pub fn into_inner(self) -> W
        ensures { result ≡ output_of self }
    {
        self.output
    }

    /// Appends what is written where the line that is held ends: it is shown, or the rest of it was handed on.
    fn push_end(&self, made: &mut Made, style: &Style)
        requires style { style_of self.now ≡ Some style.now }
        requires room { made.old.items ≡ [] }
        ensures { made.new.items ≡ to_show self.now [] }
    {
        if !self.passes {
            push_line(made, style, self.line.as_slice());
        }
    }
}

impl<W: Write> Styled<W> {
    /// Takes a part of a line.
    fn hold(&mut self, part: &[u8]) -> io::Result<()>
        requires styled { is_some (style_of self.old) ≡ true }
        requires part { HasNoLineFeed part.now }
        ensures { OnOk result (Takes W.contents self.old self.new part.now) }
    {
        if self.passes {
            return self.output.write_all(part);
        }
        if self.line.try_extend_from_slice(part).is_err() {
            self.passes = true;
            self.output.write_all(self.line.as_slice())?;
            return self.output.write_all(part);
        }
        Ok(())
    }

    /// Shows what is held, and holds nothing from then on.
    fn show(&mut self, style: &Style) -> io::Result<()>
        requires { style_of self.old ≡ Some style.now }
        ensures shows { OnOk result (Shows W.contents self.old self.new) }
        ensures holds { HoldsNothing self.new }
        ensures style { style_of self.new ≡ style_of self.old }
    {
        let mut made = Made::new();
        self.push_end(&mut made, style);
        self.line.clear();
        self.passes = false;
        self.output.write_all(made.as_slice())
    }

    /// Takes what ends a line.
    fn end_line(&mut self, style: &Style) -> io::Result<()>
        requires { style_of self.old ≡ Some style.now }
        ensures { OnOk result (Takes W.contents self.old self.new (LINE_FEED ∷ [])) }
    {
        self.show(style)?;
        self.output.write_all(b"\n")
    }

    /// Takes the front of a text, up to the end of its first line. The answer is how many bytes that is.
    fn take_line(&mut self, style: &Style, text: &[u8]) -> io::Result<usize>
        requires { style_of self.old ≡ Some style.now }
        ensures bound { WritesAtMost result text.now }
        ensures takes { IfOk result (λ count. Takes W.contents self.old self.new (take count text.now)) }
    {
        match memchr(LINE_FEED, text) {
            Some(end) => {
                self.hold(&text[..end])?;
                self.end_line(style)?;
                Ok(end + 1)
            }
            None => {
                self.hold(text)?;
                Ok(text.len())
            }
        }
    }
}

impl<W: Write> Write for Styled<W> {
    // What a terminal is shown isn't what was given.
    ghost contents = { λ it. plain_contents (style_of it) (W.contents (output_of it)) };

    fn write(&mut self, text: &[u8]) -> io::Result<usize>
        ensures bound { WritesAtMost result text.now }
        ensures bytes { WriteAppends (plain_contents (style_of self.old) (W.contents (output_of self.old)))
            (plain_contents (style_of self.new) (W.contents (output_of self.new))) result text.now }
        ensures takes { IfOk result (λ count. Takes W.contents self.old self.new (take count text.now)) }
    {
        match self.style {
            Some(style) => self.take_line(&style, text),
            None => self.output.write(text),
        }
    }

    fn flush(&mut self) -> io::Result<()>
        ensures bytes { Keeps (plain_contents (style_of self.old) (W.contents (output_of self.old)))
            (plain_contents (style_of self.new) (W.contents (output_of self.new))) }
        ensures shows { OnOk result (Shows W.contents self.old self.new) }
        ensures holds { OnOk result (HoldsNothing self.new) }
        ensures style { style_of self.new ≡ style_of self.old }
    {
        if let Some(style) = self.style {
            self.show(&style)?;
        }
        self.output.flush()
    }
}
