//! The text of a work's row, piece by piece.

ghost use Rattle.std.specs.Prelude.{◌≡◌, ◌++◌, codes, true, Some};
ghost use Rattle.cwr_devices.specs.Steps.Pens.{Adds};
ghost use Rattle.cwr_fields.specs.Format.Kinds.{letters};
ghost use Rattle.cwr_tables.specs.declared.works.Side.TheVariants.{Writers};
ghost use Rattle.cwr_tables.specs.Format.Tables.{cell_text};
ghost use Rattle.cwr_tables.specs.Format.WorkTables.{is_header, is_on, name_of_owner, names, percent, work_heading};
ghost use Rattle.cwr_tables.specs.Steps.RowTexts.{next_cell};
ghost use Rattle.cwr_tables.specs.Steps.WorkTexts.{between, front_text, owner_text, shares_text, tail_text, within};

use crate::cells::{edge, first_number, next_number, next_shown, within};
use crate::headers::{TITLE, WORK_NUMBER};
use crate::places::Place;
use crate::works::{FIRST_NAME, LAST_NAME, PUBLISHER_NAME, Side, Sums, is_on, need_quotes};
use cwr_devices::{Pen, Target};
use cwr_fields::{Kind, is_spaces, letters, trimmed};
use cwr_findings::cell;
use cwr_json::Encoding;
use cwr_lines::RecordRef;
use cwr_values::Transaction;

/// NWR, REV: ISWC.
const ISWC: u8 = 7;

/// Adds the heading of the table of works.
pub(crate) fn work_heading<W: Target>(pen: &mut Pen<'_, W>)
    ensures { Adds W.contents W.failures work_heading pen.old pen.new }
{
    pen.text(
        b"group,transaction,record_type,submitter_work_number,title,iswc,writers,publishers,writers_pr_share,writers_mr_share,writers_sr_share,publishers_pr_share,publishers_mr_share,publishers_sr_share\r\n",
    );
}

/// Adds the letters of a kind, as a cell after others.
fn next_letters<W: Target>(kind: Kind, pen: &mut Pen<'_, W>)
    ensures { Adds W.contents W.failures (next_cell (letters kind)) pen.old pen.new }
{
    pen.text(b",");
    pen.text(letters(kind));
}

/// Adds the cells of a work before the names.
pub(crate) fn front_text<W: Target>(
    encoding: Encoding,
    place: Place,
    head: &RecordRef<'_>,
    pen: &mut Pen<'_, W>,
)
    requires { is_header head.now ≡ true }
    ensures { Adds W.contents W.failures (front_text encoding place head.now) pen.old pen.new }
{
    first_number(place.group, pen);
    next_number(place.transaction, pen);
    next_letters(head.kind(), pen);
    next_shown(encoding, cell(head, WORK_NUMBER), pen);
    next_shown(encoding, cell(head, TITLE), pen);
    next_shown(encoding, cell(head, ISWC), pen);
}

/// Adds the name of a writer, the last one first, as it stands in a cell with quotes or without.
fn writer_name<W: Target>(
    encoding: Encoding,
    quoted: bool,
    shown: &RecordRef<'_>,
    pen: &mut Pen<'_, W>,
)
    requires { is_on Writers shown.now ≡ true }
    ensures { Adds W.contents W.failures (within quoted (name_of_owner encoding Writers shown.now))
        pen.old pen.new }
{
    within(encoding, quoted, trimmed(cell(shown, LAST_NAME)), pen);
    let first = cell(shown, FIRST_NAME);
    if is_spaces(first) {
        return;
    }
    pen.text(b" ");
    within(encoding, quoted, trimmed(first), pen);
}

/// Adds the name of an owner, as it stands in a cell with quotes or without.
fn name_of_owner<W: Target>(
    encoding: Encoding,
    side: Side,
    quoted: bool,
    shown: &RecordRef<'_>,
    pen: &mut Pen<'_, W>,
)
    requires { is_on side shown.now ≡ true }
    ensures { Adds W.contents W.failures (within quoted (name_of_owner encoding side shown.now))
        pen.old pen.new }
{
    match side {
        Side::Writers => writer_name(encoding, quoted, shown, pen),
        Side::Publishers => {
            within(encoding, quoted, trimmed(cell(shown, PUBLISHER_NAME)), pen);
        }
    }
}

/// Adds what stands before a name that comes after others.
fn between<W: Target>(later: bool, pen: &mut Pen<'_, W>)
    ensures { Adds W.contents W.failures (between later) pen.old pen.new }
{
    if later {
        pen.text(b"; ");
    }
}

/// Adds the name of a record, if that is an owner of the side, which comes after others or not.
fn owner_text<W: Target>(
    encoding: Encoding,
    side: Side,
    quoted: bool,
    later: bool,
    shown: &RecordRef<'_>,
    pen: &mut Pen<'_, W>,
)
    ensures { Adds W.contents W.failures (owner_text encoding side quoted later shown.now) pen.old
        pen.new }
{
    if !is_on(side, shown) {
        return;
    }
    between(later, pen);
    name_of_owner(encoding, side, quoted, shown, pen);
}

/// Adds the names of the owners, as they stand in a cell with quotes or without.
fn names<W: Target>(
    encoding: Encoding,
    side: Side,
    quoted: bool,
    transaction: &Transaction,
    pen: &mut Pen<'_, W>,
)
    ensures { Adds W.contents W.failures (within quoted (names encoding side transaction.now)) pen.old
        pen.new }
{
    let count = transaction.len();
    let mut later = false;
    let mut i: usize = 0;
    while let Some(shown) = transaction.record(i) {
        owner_text(encoding, side, quoted, later, &shown, pen);
        prove!(i < count);
        later |= is_on(side, &shown);
        i += 1;
    }
}

/// Adds the cell of the names of the owners, after other cells.
pub(crate) fn next_names<W: Target>(
    encoding: Encoding,
    side: Side,
    transaction: &Transaction,
    pen: &mut Pen<'_, W>,
)
    ensures { Adds W.contents W.failures (next_cell (names encoding side transaction.now)) pen.old
        pen.new }
{
    let quoted = need_quotes(side, transaction);
    pen.text(b",");
    edge(quoted, pen);
    names(encoding, side, quoted, transaction, pen);
    edge(quoted, pen);
}

/// Adds a share in percent, as a cell.
fn percent<W: Target>(share: u64, pen: &mut Pen<'_, W>)
    ensures { Adds W.contents W.failures (cell_text (percent (Some share))) pen.old pen.new }
{
    pen.number(share / 100);
    pen.text(&[
        b'.',
        b'0' + (share / 10 % 10) as u8,
        b'0' + (share % 10) as u8,
    ]);
}

/// Adds a share in percent, or nothing, as a cell after others.
fn next_percent<W: Target>(share: Option<u64>, pen: &mut Pen<'_, W>)
    ensures { Adds W.contents W.failures (next_cell (percent share)) pen.old pen.new }
{
    pen.text(b",");
    let Some(share) = share else {
        return;
    };
    percent(share, pen);
}

/// Adds three shares after other cells.
fn shares_text<W: Target>(sums: Sums, pen: &mut Pen<'_, W>)
    ensures { Adds W.contents W.failures (shares_text sums) pen.old pen.new }
{
    next_percent(sums.performing, pen);
    next_percent(sums.mechanical, pen);
    next_percent(sums.synchronization, pen);
}

/// Adds the cells of a work after the names.
pub(crate) fn tail_text<W: Target>(writers: Sums, publishers: Sums, pen: &mut Pen<'_, W>)
    ensures { Adds W.contents W.failures (tail_text writers publishers) pen.old pen.new }
{
    shares_text(writers, pen);
    shares_text(publishers, pen);
    pen.text(b"\r\n");
}
