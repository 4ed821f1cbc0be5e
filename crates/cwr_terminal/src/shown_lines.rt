//! Lines as they are shown.

ghost use Rattle.std.specs.Prelude.{◌≡◌, ◌+◌, ◌*◌, ◌≤◌, ◌++◌, length, true, IfSome};
ghost use Rattle.cwr_terminal.specs.Format.Shown.{begins_own, broken_from, name_length, own_from, shown_behind_name, shown_line, shown_own, text_from};

use crate::breaks::{LABEL, columns, gap_end, indent_in, is_explanation, push_broken};
use crate::colours::push_coloured;
use crate::styles::{DEEPEST, LONGEST, Lines, MOST, Made, Style, push_all};

/// Whether a text begins with the colon and the space that stand behind a name.
fn begins_own(text: &[u8]) -> bool
    ensures value { result ≡ begins_own text.now }
    ensures long { result ≡ true → 2 ≤ length text.now }
{
    text.len() > 1 && text[0] == b':' && text[1] == b' '
}

/// How many bytes of a line are the name before it, with the colon and the space behind that; none where there are none.
fn name_length(line: &[u8]) -> usize
    ensures value { result ≡ name_length line.now 0 }
    ensures most { result ≤ length line.now }
{
    for i in 0..line.len() {
        if begins_own(&line[i..]) {
            return i + 2;
        }
    }
    0
}

/// Where a line's own text begins.
fn own_from(lines: Lines, line: &[u8]) -> usize
    ensures value { result ≡ own_from lines line.now }
    ensures most { result ≤ length line.now }
{
    match lines {
        Lines::Named => name_length(line),
        Lines::Told | Lines::Help => 0,
    }
}

/// Where the text begins that is broken, in a line's own text, if there is one.
fn text_from(lines: Lines, own: &[u8]) -> Option<usize>
    ensures value { result ≡ text_from lines own.now }
    ensures long { IfSome result (λ from. from ≤ length own.now) }
{
    match lines {
        Lines::Help => Some(gap_end(own)),
        Lines::Told | Lines::Named => if is_explanation(own) {
            Some(LABEL)
        } else {
            None
        },
    }
}

/// Appends a line's own text behind so many columns, with what stands from there on broken.
fn push_broken_from(made: &mut Made, width: Option<usize>, column: usize, from: usize, own: &[u8])
    requires room { length made.old.items + (DEEPEST + 1) * length own.now ≤ MOST }
    requires column { column + length own.now ≤ LONGEST }
    requires long { from ≤ length own.now }
    ensures { made.new.items ≡ made.old.items ++ broken_from width column from own.now }
{
    match width {
        Some(width) => {
            let front = &own[..from];
            push_all(made, front);
            let begun = column + columns(front);
            let indent = indent_in(width, begun, from);
            push_broken(made, indent, width, begun, &own[from..]);
        }
        None => push_all(made, own),
    }
}

/// Appends a line's own text behind so many columns.
fn push_own(made: &mut Made, style: &Style, column: usize, own: &[u8])
    requires room { length made.old.items + (DEEPEST + 1) * length own.now + 10 ≤ MOST }
    requires column { column + length own.now ≤ LONGEST }
    ensures { made.new.items ≡ made.old.items ++ shown_own (text_from style.now.lines own.now) style.now column own.now }
{
    match text_from(style.lines, own) {
        Some(from) => push_broken_from(made, style.width, column, from, own),
        None => if style.coloured {
            push_coloured(made, own);
        } else {
            push_all(made, own);
        },
    }
}

/// Appends a line behind a name as it is shown.
fn push_behind_name(made: &mut Made, style: &Style, name: &[u8], own: &[u8])
    requires room { length made.old.items + (DEEPEST + 1) * (length name.now + length own.now) + 10 ≤ MOST }
    requires most { length name.now + length own.now ≤ LONGEST }
    ensures { made.new.items ≡ made.old.items ++ shown_behind_name style.now name.now own.now }
{
    push_all(made, name);
    push_own(made, style, columns(name), own);
}

/// Appends a line as it is shown, which isn't too long for that.
pub(crate) fn push_line(made: &mut Made, style: &Style, line: &[u8])
    requires room { length made.old.items + (DEEPEST + 1) * length line.now + 10 ≤ MOST }
    requires most { length line.now ≤ LONGEST }
    ensures { made.new.items ≡ made.old.items ++ shown_line style.now line.now }
{
    let (name, own) = line.split_at(own_from(style.lines, line));
    push_behind_name(made, style, name, own);
}
