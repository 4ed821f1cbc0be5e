//! A source whose lines have the numbers that belong in them.

ghost use Rattle.std.specs.Prelude.{◌≡◌, ◌≤◌, ◌+◌, false, length};
ghost use Rattle.cwr_lines.specs.declared.lines.LineEnd.TheVariants.{Open};
ghost use Rattle.cwr_lines.specs.Steps.Held.{ended_too_long};

use crate::jumps::Jumps;
use crate::renumbered_lines::put_line;
use crate::takings::take_line;
use cwr_devices::{DeviceFault, Source};
use cwr_lines::{LineBuf, LineEnd, RenumberedLine};
use cwr_shape::Numbering;

/// Whether a line ended before a byte too many.
fn is_too_long(ended: LineEnd) -> bool
    ensures { result ≡ ended_too_long ended }
{
    matches!(ended, LineEnd::Over)
}

/// A source with the bytes of another one, and in each derived cell the number that belongs there by the lines before. Lines are
/// filled up to the widths of their kinds. Nothing follows a line that is too long.
pub(crate) struct Renumbered<R> {
    inner: R,
    /// The bytes of the next line that were taken.
    line: LineBuf,
    numbering: Numbering,
    /// Where the sequences of the lines that were taken don't go on.
    jumps: Jumps,
    /// The line that is handed out.
    out: RenumberedLine,
    /// How many bytes it has.
    end: usize,
    /// How many of its bytes were consumed.
    at: usize,
    /// How many of its bytes the last `fill` showed.
    shown: usize,
    /// A line was too long.
    is_over: bool,
    ghost open: { line.ended ≡ Open },
    ghost long: { end ≡ length out },
    ghost within: { at + shown ≤ end },
}

impl<R: Source> Renumbered<R> {
    ghost use Rattle.std.specs.Prelude.{[], option_map, IfOk, IfSome, OnErr};
    ghost use Rattle.cwr_devices.specs.Format.Failures.{CountsFailure};
    ghost use Rattle.std.specs.Io.KnownBytes.{Keeps};
    ghost use Rattle.cwr_renumber.specs.Steps.Renumbered.{renumbered_text};
    ghost use Rattle.cwr_renumber.specs.Steps.Sources.{inner_of, left_of, shown_of};

    /// The source with its numbers put right, from its first line on.
    pub(crate) fn new(inner: R) -> Renumbered<R>
        ensures inner { inner_of result ≡ inner }
        ensures left { left_of result (R.remaining inner)
            ≡ option_map renumbered_text (R.remaining inner) }
    {
        Renumbered {
            inner,
            line: LineBuf::new(),
            numbering: Numbering::new(),
            jumps: Jumps::none(),
            out: RenumberedLine::new(),
            end: 0,
            at: 0,
            shown: 0,
            is_over: false,
        }
    }

    /// The source in it, and where the sequences of the lines that were taken don't go on.
    pub(crate) fn into_parts(self) -> (R, Jumps)
        ensures { result.0 ≡ inner_of self }
    {
        let Renumbered {
            inner,
            line: _,
            numbering: _,
            jumps,
            out: _,
            end: _,
            at: _,
            shown: _,
            is_over: _,
        } = self;
        (inner, jumps)
    }

    /// Takes the next line, where nothing is left of the one that is handed out. At the end of the source there is none.
    fn load_line(&mut self) -> Result<(), DeviceFault>
        requires used { self.old.at ≡ self.old.end }
        requires more { self.old.is_over ≡ false }
        ensures bytes { Keeps (left_of self.old (R.remaining (inner_of self.old)))
            (left_of self.new (R.remaining (inner_of self.new))) }
        ensures end { IfOk result (λ _. self.new.at ≡ self.new.end
            → IfSome (left_of self.old (R.remaining (inner_of self.old))) (λ left. left ≡ [])) }
        ensures shown { self.new.shown ≡ self.old.shown }
        ensures failures { CountsFailure result (R.failures (inner_of self.old))
            (R.failures (inner_of self.new)) }
    {
        let ended = take_line(&mut self.inner, &mut self.line)?;
        if let LineEnd::Open = ended {
            return Ok(());
        }
        put_line(
            &mut self.numbering,
            &self.line.cut(),
            &mut self.jumps,
            &mut self.out,
        );
        self.line.clear();
        self.is_over = is_too_long(ended);
        self.end = self.out.as_slice().len();
        self.at = 0;
        Ok(())
    }

    /// Takes a line where nothing is left of the one that is handed out, and shows what is left of it.
    fn load(&mut self) -> Result<(), DeviceFault>
        ensures bytes { Keeps (left_of self.old (R.remaining (inner_of self.old)))
            (left_of self.new (R.remaining (inner_of self.new))) }
        ensures shown { IfOk result (λ _. self.new.at + self.new.shown ≡ self.new.end) }
        ensures end { IfOk result (λ _. self.new.shown ≡ 0
            → IfSome (left_of self.old (R.remaining (inner_of self.old))) (λ left. left ≡ [])) }
        ensures none { OnErr result (self.new.shown ≡ 0) }
        ensures failures { CountsFailure result (R.failures (inner_of self.old))
            (R.failures (inner_of self.new)) }
    {
        self.shown = 0;
        self.inner.fill()?;
        if self.at == self.end && !self.is_over {
            self.load_line()?;
        }
        self.shown = self.end - self.at;
        Ok(())
    }
}

impl<R: Source> Source for Renumbered<R> {
    ghost use Rattle.cwr_renumber.specs.Steps.Sources.{inner_of, left_of, shown_of};

    ghost remaining = { λ s. left_of s (R.remaining (inner_of s)) };

    ghost shown = { shown_of };

    ghost failures = { λ s. R.failures (inner_of s) };

    fn fill(&mut self) -> Result<&[u8], DeviceFault> {
        self.load()?;
        let loaded = &*self;
        Ok(&loaded.out.as_slice()[loaded.at..])
    }

    fn consume(&mut self, count: usize) {
        self.shown -= count;
        self.at += count;
    }
}
