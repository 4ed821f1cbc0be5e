//! What is told of transmissions that are joined, on standard error. What that doesn't take is lost.

use crate::join_inputs::name_of;
use crate::join_views::JoinView;
use cwr_findings::cell;
use cwr_lines::{ControlRecord, RecordRef};
use std::io;
use std::io::Write;

/// HDR: sender type, sender ID and sender name.
const SENDER_TYPE: u8 = 2;

const SENDER_ID: u8 = 3;

const SENDER_NAME: u8 = 4;

/// Whether two headers name the same sender, by its type and ID.
fn have_same_sender(one: &RecordRef<'_>, other: &RecordRef<'_>) -> bool {
    cell(one, SENDER_TYPE) == cell(other, SENDER_TYPE)
        && cell(one, SENDER_ID) == cell(other, SENDER_ID)
}

/// The number of the first transmission, from 1, whose sender is another than that of the first.
pub(crate) fn other_sender(openings: &[ControlRecord]) -> Option<usize> {
    let first = openings.first()?;
    let place = openings.iter().position(|opening| !have_same_sender(
        &opening.view(),
        &first.view(),
    ))?;
    Some(place + 1)
}

/// The word for the transmission of that number, from 1.
pub(crate) fn word_of<'a>(names: &[&'a str], number: usize) -> Option<&'a str> {
    names.get(number.checked_sub(1)?).copied()
}

/// A cell without its trailing spaces.
fn trimmed(cell: &[u8]) -> &[u8] {
    cell.trim_ascii_end()
}

/// Writes who sent a transmission.
fn put_sender<E: Write>(error: &mut E, opening: &RecordRef<'_>) -> io::Result<()> {
    error.write_all(trimmed(cell(opening, SENDER_TYPE)))?;
    error.write_all(b" ")?;
    error.write_all(trimmed(cell(opening, SENDER_ID)))?;
    error.write_all(b" ")?;
    error.write_all(trimmed(cell(opening, SENDER_NAME)))
}

/// Writes under whose name the works of a transmission now go out, or where they aren't joined, who sent the first one.
fn put_other<E: Write>(
    error: &mut E,
    word: &str,
    opening: &RecordRef<'_>,
    first: &RecordRef<'_>,
    is_kept: bool,
) -> io::Result<()> {
    write!(error, "cwr: {}: sent by ", name_of(word))?;
    put_sender(error, opening)?;
    let joined = if is_kept {
        ", and joined under "
    } else {
        ", and the first transmission by "
    };
    error.write_all(joined.as_bytes())?;
    put_sender(error, first)?;
    writeln!(error)
}

/// Tells which transmissions have another sender than the first, under whose name their works now go out where the join is kept.
pub(crate) fn tell_senders<E: Write>(
    error: &mut E,
    names: &[&str],
    openings: &[ControlRecord],
    is_kept: bool,
) {
    let Some(first) = openings.first() else {
        return;
    };
    for (word, opening) in names.iter().zip(openings) {
        if !have_same_sender(&opening.view(), &first.view()) {
            let _ = put_other(error, word, &opening.view(), &first.view(), is_kept);
        }
    }
}

/// Tells which work numbers stand in two transmissions.
pub(crate) fn tell_repeated<E: Write>(error: &mut E, names: &[&str], view: &JoinView) {
    for work in &view.works.repeated {
        let (Some(first), Some(own)) = (word_of(names, work.first), word_of(names, work.input))
        else {
            continue;
        };
        let _ = write!(error, "cwr: {}: work number ", name_of(own));
        let _ = error.write_all(trimmed(&work.number));
        let _ = writeln!(error, " stands in {}, too", name_of(first));
    }
    if let Some(limit) = view.works.passed_limit() {
        let _ = writeln!(
            error,
            "cwr: the numbers of the first {limit} works are kept: works after them are compared with those alone"
        );
    }
}
