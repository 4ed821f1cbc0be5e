//! What a transaction's header says of whose it is.

ghost use Rattle.std.specs.Prelude.{◌≡◌, ◌≤◌, length};
ghost use Rattle.cwr_findings.specs.Format.Headers.{is_work, work_number, work_title};

use crate::named_cells::{cell, is_of};
use cwr_fields::Kind;
use cwr_lines::RecordRef;

/// NWR, REV: title.
pub const TITLE: u8 = 4;

/// NWR, REV: submitter work number.
pub const WORK_NUMBER: u8 = 6;

/// ACK: creation title.
pub const CREATION_TITLE: u8 = 9;

/// ACK: submitter creation number.
pub const CREATION_NUMBER: u8 = 10;

/// AGR: submitter agreement number.
pub const AGREEMENT_NUMBER: u8 = 4;

/// Whether the header is that of a work.
fn is_work(head: &RecordRef<'_>) -> bool
    ensures { result ≡ is_work head.now }
{
    is_of(head, Kind::Nwr) || is_of(head, Kind::Rev)
}

/// The number of the work or agreement that a header has, or of what an acknowledgement answers.
pub fn work_number<'a>(head: &RecordRef<'a>) -> &'a [u8]
    ensures value { result.now ≡ work_number head.now }
    ensures short { length result.now ≤ 20 }
{
    if is_work(head) {
        return cell(head, WORK_NUMBER);
    }
    if is_of(head, Kind::Ack) {
        return cell(head, CREATION_NUMBER);
    }
    if is_of(head, Kind::Agr) {
        return cell(head, AGREEMENT_NUMBER);
    }
    b""
}

/// The title of the work that a header has, or of what an acknowledgement answers.
pub fn work_title<'a>(head: &RecordRef<'a>) -> &'a [u8]
    ensures value { result.now ≡ work_title head.now }
    ensures short { length result.now ≤ 60 }
{
    if is_work(head) {
        return cell(head, TITLE);
    }
    if is_of(head, Kind::Ack) {
        return cell(head, CREATION_TITLE);
    }
    b""
}
