//! The next line of a source.

ghost use Rattle.std.specs.Prelude.{◌≡◌, IfOk};
ghost use Rattle.cwr_devices.specs.Format.Failures.{CountsFailure};
ghost use Rattle.cwr_lines.specs.declared.lines.LineEnd.TheVariants.{Open};
ghost use Rattle.cwr_lines.specs.Steps.Held.{IsHeld};
ghost use Rattle.cwr_renumber.specs.Steps.Takings.{TakesLine};

use cwr_devices::{DeviceFault, Source};
use cwr_lines::{LineBuf, LineEnd};

/// Takes the rest of the open line from a source, up to its end. `Open` where the source has no more bytes, and none of the line
/// was taken. A last line without its line feed is one that has it. Where the source fails the line is open.
pub(crate) fn take_line<R: Source>(
    inner: &mut R,
    line: &mut LineBuf,
) -> Result<LineEnd, DeviceFault>
    requires { line.old.ended ≡ Open }
    ensures takes { TakesLine (R.remaining inner.old) (R.remaining inner.new) line.old line.new
        result }
    ensures held { IfOk result (λ _. IsHeld line.new) }
    ensures failures { CountsFailure result (R.failures inner.old) (R.failures inner.new) }
{
    loop {
        let piece = inner.fill()?;
        if piece.is_empty() {
            if line.len() == 0 {
                return Ok(LineEnd::Open);
            }
            line.close();
            return Ok(LineEnd::Line);
        }
        let taken = line.take(piece);
        inner.consume(taken.used);
        match taken.ended {
            LineEnd::Open => {}
            ended => return Ok(ended),
        }
    }
}
