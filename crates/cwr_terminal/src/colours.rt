//! The colours of the words that lines begin with.

ghost use Rattle.std.specs.Prelude.{◌≡◌, ◌+◌, ◌≤◌, ◌++◌, length, option_map, position, IfSome};
ghost use Rattle.cwr_terminal.specs.Format.Colours.{colour_of, coloured, ends_word, first_word, is_red, is_yellow};

use crate::styles::{MOST, Made, push_all};

/// What begins each colour.
const RED: &[u8] = b"\x1b[31m";

const YELLOW: &[u8] = b"\x1b[33m";

const GREEN: &[u8] = b"\x1b[32m";

/// What begins the terminal's own colour.
const OWN: &[u8] = b"\x1b[39m";

/// Where the first word of a line ends.
fn end_of_word(line: &[u8]) -> Option<usize>
    ensures { result ≡ position ends_word line.now }
{
    line.iter().position(|b| *b <= b' ')
}

/// The first word of a line.
fn first_word(line: &[u8]) -> &[u8]
    ensures value { result.now ≡ first_word line.now }
    ensures most { length result.now ≤ length line.now }
{
    match end_of_word(line) {
        Some(end) => &line[..end],
        None => line,
    }
}

/// Whether a word is shown in red.
fn is_red(word: &[u8]) -> bool
    ensures { result ≡ is_red word.now }
{
    word == b"REFUSED".as_slice()
        || word == b"TRUNCATED".as_slice()
        || word == b"FAULT".as_slice()
        || word == b"FAULTS".as_slice()
}

/// Whether a word is shown in yellow.
fn is_yellow(word: &[u8]) -> bool
    ensures { result ≡ is_yellow word.now }
{
    word == b"FINDING".as_slice() || word == b"ADVICE".as_slice()
}

/// What begins the colour of a word, if it has one.
fn colour_of(word: &[u8]) -> Option<&'static [u8]>
    ensures value { option_map (λ colour. colour.now) result ≡ colour_of word.now }
    ensures long { IfSome result (λ colour. length colour.now ≡ 5) }
{
    if is_red(word) {
        Some(RED)
    } else if is_yellow(word) {
        Some(YELLOW)
    } else if word == b"GOOD".as_slice() {
        Some(GREEN)
    } else {
        None
    }
}

/// Appends a line with the colour of its first word, where that has one.
pub(crate) fn push_coloured(made: &mut Made, line: &[u8])
    requires { length made.old.items + length line.now + 10 ≤ MOST }
    ensures { made.new.items ≡ made.old.items ++ coloured line.now }
{
    let word = first_word(line);
    match colour_of(word) {
        Some(colour) => {
            push_all(made, colour);
            push_all(made, word);
            push_all(made, OWN);
            push_all(made, &line[word.len()..]);
        }
        None => push_all(made, line),
    }
}
