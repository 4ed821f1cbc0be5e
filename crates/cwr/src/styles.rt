//! How lines are shown on terminals.

ghost use Rattle.std.specs.Prelude.{◌≡◌, ◌≢◌, ◌≤◌, None, false};
ghost use Rattle.cwr.specs.Format.Styles.{has_colours, help_style, lines_of, lines_on, style_of, style_with, width_of};

use crate::terminal::Terminals;
use cwr_terminal::{Lines, Style};
use cwr_words::{Colouring, Work};

/// How many columns lines have at most where the environment doesn't say it.
pub(crate) const COLUMNS: usize = 80;

/// The least that it may say.
const LEAST: usize = 40;

/// How many columns lines have at most, where the environment says that.
pub(crate) fn columns_in(text: &str) -> usize
    ensures { LEAST ≤ result }
{
    match text.parse::<usize>() {
        Ok(columns) if columns >= LEAST => columns,
        _ => COLUMNS,
    }
}

/// The lines on so many files.
fn lines_on(count: usize) -> Lines
    ensures { result ≡ lines_on count }
{
    if 1 < count { Lines::Named } else { Lines::Told }
}

/// A work's lines on standard output, where these are verdicts, faults, findings and advice with what explains them.
fn lines_of(work: &Work<'_>) -> Option<Lines>
    ensures { result ≡ lines_of work.now }
{
    match work {
        Work::Check(judging) | Work::Explain(judging) => Some(lines_on(judging.files.len())),
        Work::Lint(words) => Some(lines_on(words.files.len())),
        Work::Advise(words) => Some(lines_on(words.judging.files.len())),
        _ => None,
    }
}

/// Whether their first words have colours.
fn has_colours(colouring: Colouring, terminals: &Terminals) -> bool
    ensures { result ≡ has_colours colouring terminals.now }
{
    match colouring {
        Colouring::Always => true,
        Colouring::Never => false,
        Colouring::Auto => terminals.output && terminals.colours,
    }
}

/// How many columns they have at most.
fn width_of(terminals: &Terminals) -> Option<usize>
    ensures { result ≡ width_of terminals.now }
{
    if terminals.output {
        Some(terminals.columns)
    } else {
        None
    }
}

/// How they are shown, where they aren't written as they are.
fn style_with(lines: Option<Lines>, width: Option<usize>, coloured: bool) -> Option<Style>
    ensures { result ≡ style_with lines width coloured }
{
    let lines = lines?;
    if width.is_some() || coloured {
        Some(Style {
            width,
            coloured,
            lines,
        })
    } else {
        None
    }
}

/// How the lines of a work are shown on standard output.
pub(crate) fn style_of(
    work: &Work<'_>,
    colouring: Colouring,
    terminals: &Terminals,
) -> Option<Style>
    ensures value { result ≡ style_of work.now colouring terminals.now }
    // Without a terminal, or colours that are asked for always, they are written as they are.
    ensures plain { terminals.now.output ≡ false → colouring ≢ Colouring.Always → result ≡ None }
{
    style_with(
        lines_of(work),
        width_of(terminals),
        has_colours(colouring, terminals),
    )
}

/// How help is shown on standard error, where it isn't written as it is.
pub(crate) fn help_style(terminals: &Terminals) -> Option<Style>
    ensures value { result ≡ help_style terminals.now }
    ensures plain { terminals.now.error ≡ false → result ≡ None }
{
    if terminals.error {
        Some(Style {
            width: Some(terminals.columns),
            coloured: false,
            lines: Lines::Help,
        })
    } else {
        None
    }
}
