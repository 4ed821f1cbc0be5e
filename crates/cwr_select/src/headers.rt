//! HDR of a transmission that is created at a moment.

ghost use Rattle.std.specs.Prelude.{◌≡◌, ◌≤◌, length};
ghost use Rattle.cwr_fields.specs.declared.kinds.Kind.TheVariants as kinds;
ghost use Rattle.cwr_select.specs.Format.Created.{created_header, later_day};
ghost use Rattle.cwr_lines.specs.Format.Records.{RecordValue};
ghost use Rattle.cwr_select.specs.Steps.Headers.{created_item};

use crate::copies::{copied, put};
use cwr_fields::{Cell, Kind};
use cwr_findings::{cell, number_of};
use cwr_lines::{ControlRecord, Draft, RecordRef};
use cwr_moments::Moment;
use cwr_values::Item;

/// The later of two days, each as a cell.
fn later_day<'a>(one: &'a [u8], other: &'a [u8]) -> &'a [u8]
    requires one { length one.now ≤ 8 }
    requires other { length other.now ≤ 8 }
    ensures { result.now ≡ later_day one.now other.now }
{
    if number_of(one) < number_of(other) {
        other
    } else {
        one
    }
}

/// HDR with all its cells, of which the moment's day and time are the creation date and time.
fn created_draft(moment: Moment, shown: &RecordRef<'_>) -> Draft
    requires { shown.now.kind ≡ kinds.Hdr }
    ensures { result ≡ created_header moment shown.now }
{
    let mut day = [b' '; 8];
    moment.date.write(&mut day);
    let mut time = [b' '; 6];
    moment.time.write(&mut time);
    let transmitted = later_day(cell(shown, 8), &day);
    let mut draft = copied(Kind::Hdr, shown);
    put(&mut draft, 6, &day);
    put(&mut draft, 7, &time);
    put(&mut draft, 8, transmitted);
    draft
}

/// HDR as that of a transmission that is created at the moment.
fn created_header(moment: Moment, opening: &ControlRecord) -> ControlRecord
    requires { opening.now.kind ≡ kinds.Hdr }
    ensures { result ≡ created_header moment opening.now }
{
    match created_draft(moment, &opening.view()).done() {
        Ok(made) => made.view().to_control(),
        Err(_) => unreachable!(),
    }
}

/// An item of a transmission that is created at the moment, where there is one: HDR has it, and all other items stay.
pub(crate) fn created_item(created: Option<Moment>, item: Item) -> Item
    requires { (r : RecordValue) → item ≡ Item.Opened r → r.kind ≡ kinds.Hdr }
    ensures { result ≡ created_item created item }
{
    let Some(moment) = created else {
        return item;
    };
    match &item {
        Item::Opened(opening) => Item::Opened(created_header(moment, opening)),
        Item::GroupOpened(_) | Item::Transaction(_) | Item::GroupClosed(_) | Item::Ended => item,
    }
}
