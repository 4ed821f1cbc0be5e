//! How lines are shown.

ghost use Rattle.std.specs.Prelude.{◌≡◌, ◌+◌, ◌≤◌, ◌++◌, length};

use arrayvec::ArrayVec;

/// How many bytes the longest line has that isn't left as it is.
pub const LONGEST: usize = 1024;

/// How many columns the lines are indented by, at most, into which a text is broken.
pub const DEEPEST: usize = 48;

/// How many bytes a line has as it is shown, at most: each space may become a new line, and a word have its colour.
pub(crate) const MOST: usize = (DEEPEST + 1) * LONGEST + 10;

/// A line as it is shown.
pub(crate) type Made = ArrayVec<u8, MOST>;

/// Appends bytes for which there is room.
pub(crate) fn push_all(made: &mut Made, bytes: &[u8])
    requires { length made.old.items + length bytes.now ≤ MOST }
    ensures value { made.new.items ≡ made.old.items ++ bytes.now }
    ensures len { length made.new.items ≡ length made.old.items + length bytes.now }
{
    let _fits = made.try_extend_from_slice(bytes);
}

/// What lines there are.
#[derive(Clone, Copy, Debug, PartialEq, Eq)]
pub enum Lines {
    /// Verdicts, faults, findings and advice, and what explains them.
    Told,
    /// Those, each behind the name of a file.
    Named,
    /// Help on the command line.
    Help,
}

/// How lines are shown.
#[derive(Clone, Copy, Debug, PartialEq, Eq)]
pub struct Style {
    /// How many columns those have at most that are broken; without it none is.
    pub width: Option<usize>,
    /// Whether verdicts, faults, findings and advice begin with a word in its colour.
    pub coloured: bool,
    /// What lines they are.
    pub lines: Lines,
}
