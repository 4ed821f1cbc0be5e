//! The first line of a text in memory.

ghost use Rattle.std.specs.Prelude.{◌≡◌, ◌≤◌, [], length, take, IsNone, IfSome};
ghost use Rattle.cwr_lines.specs.Format.Lines.{without_cr};
ghost use Rattle.cwr_lines.specs.Steps.Held.{empty_line};
ghost use Rattle.cwr_decode.specs.Steps.TextLines.{FirstLine};

use cwr_lines::{LineBuf, LineEnd};

/// Takes the first line of a text, or all of it where it has no line feed. `None` where the text is empty.
pub fn first_line(line: &mut LineBuf, text: &[u8]) -> Option<usize>
    requires { line.old ≡ empty_line }
    ensures some { IfSome result (λ used. FirstLine text.now used line.new) }
    ensures none { IsNone result → text.now ≡ [] }
{
    let taken = line.take(text);
    if let LineEnd::Open = taken.ended {
        if line.len() == 0 {
            return None;
        }
        line.close();
    }
    Some(taken.used)
}

/// How many bytes of a line, whose line feed isn't counted, stand before its end.
pub(crate) fn length_without_return(line: &[u8]) -> usize
    ensures within { result ≤ length line.now }
    ensures value { take result line.now ≡ without_cr line.now }
{
    match line.last() {
        Some(b'\r') => line.len() - 1,
        _ => line.len(),
    }
}
