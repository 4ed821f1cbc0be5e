//! Where lines are broken.

ghost use Rattle.std.specs.Prelude.{◌≡◌, ◌+◌, ◌*◌, ◌<◌, ◌≤◌, ◌++◌, length, take, true};
ghost use Rattle.std.specs.List.{list_all};
ghost use Rattle.cwr_terminal.specs.Format.Breaks.{begins_gap, breaks, broken, column_behind, column_of, columns, gap_end, has_room, indent_in, is_explanation, is_label, is_of_label, may_break, new_line, shown_next, word_columns};

use crate::styles::{DEEPEST, LONGEST, MOST, Made, push_all};

/// Where the text of an explanation begins.
pub(crate) const LABEL: usize = 12;

/// How many columns there are for a text at least, where the lines are indented into which it is broken.
const ROOM: usize = 20;

/// A line feed, and the spaces of the deepest indent.
const NEW_LINE: &[u8] = b"\n                                                ";

/// How many columns a byte takes.
fn column_of(b: u8) -> usize
    ensures value { result ≡ column_of b }
    ensures most { result ≤ 1 }
{
    if b < 32 || (b >= 128 && b < 192) {
        0
    } else {
        1
    }
}

/// How many columns bytes take.
pub(crate) fn columns(text: &[u8]) -> usize
    ensures value { result ≡ columns text.now }
    ensures most { result ≤ length text.now }
{
    let mut count = 0;
    for b in text {
        count += column_of(*b);
    }
    count
}

/// Whether a line may be broken at the byte that the text begins with, behind another.
fn may_break(before: u8, text: &[u8]) -> bool
    ensures { result ≡ may_break before text.now }
{
    text.len() > 1 && text[0] == b' ' && before != b' ' && text[1] != b' '
}

/// How many columns a text takes up to where it may be broken.
fn word_columns(text: &[u8]) -> usize
    ensures value { result ≡ word_columns 32 text.now }
    ensures most { result ≤ length text.now }
{
    let mut before = b' ';
    let mut count = 0;
    for (i, b) in text.iter().enumerate() {
        if may_break(before, &text[i..]) {
            return count;
        }
        count += column_of(*b);
        before = *b;
    }
    count
}

/// Whether a line is broken at the byte that the text begins with, behind another and so many columns.
fn breaks(width: usize, column: usize, before: u8, text: &[u8]) -> bool
    requires some { 0 < length text.now }
    requires fits { column + length text.now + 1 ≤ 18446744073709551615 }
    ensures { result ≡ breaks width column before text.now }
{
    may_break(before, text) && width < column + 1 + word_columns(&text[1..])
}

/// What stands in place of a space at which a line is broken.
fn new_line(indent: usize) -> &'static [u8]
    requires { indent ≤ DEEPEST }
    ensures value { result.now ≡ new_line indent }
    ensures len { length result.now ≡ indent + 1 }
{
    &NEW_LINE[..indent + 1]
}

/// Appends what is shown of the text's first byte. The answer is how many columns stand before what follows.
fn push_next(
    made: &mut Made,
    indent: usize,
    width: usize,
    column: usize,
    before: u8,
    text: &[u8],
) -> usize
    requires room { length made.old.items + DEEPEST + 1 ≤ MOST }
    requires deep { indent ≤ DEEPEST }
    requires some { 0 < length text.now }
    requires fits { column + length text.now + 1 ≤ 18446744073709551615 }
    ensures value { made.new.items ≡ made.old.items ++ shown_next indent width column before text.now }
    ensures len { length made.new.items ≤ length made.old.items + DEEPEST + 1 }
    ensures column { result ≡ column_behind indent width column before text.now }
    ensures most { result ≤ column + DEEPEST + 1 }
{
    if breaks(width, column, before, text) {
        push_all(made, new_line(indent));
        return indent;
    }
    push_all(made, &text[..1]);
    column + columns(&text[..1])
}

/// Appends a text broken at words, so many columns behind the start of its line.
pub(crate) fn push_broken(made: &mut Made, indent: usize, width: usize, begun: usize, text: &[u8])
    requires room { length made.old.items + (DEEPEST + 1) * length text.now ≤ MOST }
    requires deep { indent ≤ DEEPEST }
    requires begun { begun ≤ LONGEST }
    ensures { made.new.items ≡ made.old.items ++ broken indent width begun 32 text.now }
{
    let mut column = begun;
    let mut before = b' ';
    for (i, b) in text.iter().enumerate() {
        column = push_next(made, indent, width, column, before, &text[i..]);
        before = *b;
    }
}

/// Whether a byte is one of a label.
fn is_of_label(b: u8) -> bool
    ensures { result ≡ is_of_label b }
{
    (b >= b'a' && b <= b'z') || b == b' '
}

/// Whether bytes are those of a label.
fn are_of_label(bytes: &[u8]) -> bool
    ensures { result ≡ list_all is_of_label bytes.now }
{
    bytes.iter().all(|b| is_of_label(*b))
}

/// Whether a text is a label, with what stands around it.
fn is_label(label: &[u8]) -> bool
    requires { length label.now ≡ LABEL }
    ensures { result ≡ is_label label.now }
{
    label[0] == b' ' && label[1] == b' ' && label[11] == b' ' && are_of_label(label)
}

/// Whether a line is one of an explanation.
pub(crate) fn is_explanation(line: &[u8]) -> bool
    ensures value { result ≡ is_explanation line.now }
    ensures long { result ≡ true → LABEL ≤ length line.now }
{
    LABEL < line.len() && is_label(&line[..LABEL])
}

/// Whether a text begins with two spaces.
fn begins_gap(text: &[u8]) -> bool
    ensures value { result ≡ begins_gap text.now }
    ensures long { result ≡ true → 2 ≤ length text.now }
{
    text.len() > 1 && text[0] == b' ' && text[1] == b' '
}

/// How many bytes stand before what is behind the last two spaces; none where there are none.
pub(crate) fn gap_end(line: &[u8]) -> usize
    ensures value { result ≡ gap_end line.now 0 0 }
    ensures most { result ≤ length line.now }
{
    let mut found = 0;
    for i in 0..line.len() {
        if begins_gap(&line[i..]) {
            found = i + 2;
        }
    }
    found
}

/// Whether there is room for lines that begin in that column.
fn has_room(width: usize, column: usize) -> bool
    ensures { result ≡ has_room width column }
{
    column <= DEEPEST && column + ROOM <= width
}

/// How far the lines are indented into which a text is broken that begins in a column, and in its line without a name behind so many bytes.
pub(crate) fn indent_in(width: usize, begun: usize, from: usize) -> usize
    ensures value { result ≡ indent_in width begun from }
    ensures deep { result ≤ DEEPEST }
{
    if has_room(width, begun) {
        begun
    } else if has_room(width, from) {
        from
    } else {
        0
    }
}
