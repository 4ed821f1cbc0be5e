//! What a row says of its transaction, by the header.

ghost use Rattle.std.specs.Prelude.{◌≡◌};
ghost use Rattle.cwr_tables.specs.Format.WorkTables.{is_header};

use cwr_fields::Kind;
use cwr_findings::is_of;
use cwr_lines::RecordRef;

/// NWR, REV: title.
pub(crate) const TITLE: u8 = 4;

/// NWR, REV: submitter work number.
pub(crate) const WORK_NUMBER: u8 = 6;

/// Whether a record is the header of a work.
pub(crate) fn is_header(shown: &RecordRef<'_>) -> bool
    ensures { result ≡ is_header shown.now }
{
    is_of(shown, Kind::Nwr) || is_of(shown, Kind::Rev)
}
