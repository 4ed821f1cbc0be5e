//! Laws of what is shown, as the contracts of functions without parameters.

ghost use Rattle.cwr_terminal.specs.Format.Laws.{BrokenToFit, NothingIsLost, ShownByLines};

/// The lines of a text are shown one by one.
pub fn lines_are_shown_by_themselves()
    ensures { ShownByLines }
{}

/// With a space in place of each line break, and without marks of colours, what is shown of a line is that line.
pub fn nothing_of_a_line_is_lost()
    ensures { NothingIsLost }
{}

/// A text is broken into lines that fit the width, or may not be broken, and only where the next word has no room.
pub fn lines_fit_the_width()
    ensures { BrokenToFit }
{}
