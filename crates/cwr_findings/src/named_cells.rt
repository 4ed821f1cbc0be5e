//! The cells that the rules read, and the numbers of their fields, from 1 (CWR 2.1).

ghost use Rattle.std.specs.Prelude.{◌≡◌, ◌-◌, ◌<◌, ◌≤◌, ◌^◌, ◌∷◌, [], length, unwrap_or};
ghost use Rattle.cwr_fields.specs.Format.Bytes.{number_of};
ghost use Rattle.cwr_lines.specs.Format.Records.{IsRecord};
ghost use Rattle.cwr_lines.specs.Format.Carried.{record_cell};
ghost use Rattle.cwr_findings.specs.Format.Findings.{is_a, is_owner};

use cwr_fields::Kind;
use cwr_lines::RecordRef;

/// AGR: agreement start date.
pub(crate) const START_DATE: u8 = 7;

/// AGR: agreement end date.
pub(crate) const END_DATE: u8 = 8;

/// NWR, REV: ISWC.
pub(crate) const WORK_ISWC: u8 = 7;

/// NWR, REV: excerpt type.
pub(crate) const EXCERPT_TYPE: u8 = 16;

/// NWR, REV: composite component count.
pub(crate) const COMPONENT_COUNT: u8 = 23;

/// EWT, VER, COM: ISWC of the work that they name.
pub(crate) const NAMED_ISWC: u8 = 5;

/// IPA: agreement role.
pub(crate) const ROLE: u8 = 4;

/// IPA: performing share. Those of the other rights are two and four fields further.
pub(crate) const PARTY_SHARES: u8 = 11;

/// SPU, OPU: interested party number.
pub(crate) const PUBLISHER_NUMBER: u8 = 5;

/// SWR, OWR: interested party number.
pub(crate) const WRITER_NUMBER: u8 = 4;

/// SWR, OWR: writer designation.
pub(crate) const DESIGNATION: u8 = 8;

/// SPT, SWT: interested party number.
pub(crate) const TERRITORY_NUMBER: u8 = 4;

/// PWR: interested party number of the publisher.
pub(crate) const PUBLISHER_OF_WRITER: u8 = 4;

/// SPU, OPU: performing ownership share. Those of the other rights are two and four fields further.
pub const PUBLISHER_SHARES: u8 = 13;

/// SWR, OWR: performing ownership share. Those of the other rights are two and four fields further.
pub const WRITER_SHARES: u8 = 12;

/// Whether the record is of the kind.
#[inline(always)]
pub fn is_of(shown: &RecordRef<'_>, kind: Kind) -> bool
    ensures { result ≡ is_a kind shown.now }
{
    shown.kind() == kind
}

/// Whether the record owns shares of a work: it is SPU, OPU, SWR or OWR.
#[inline(always)]
pub fn is_owner(shown: &RecordRef<'_>) -> bool
    ensures { result ≡ is_owner shown.now }
{
    is_of(shown, Kind::Spu)
        || is_of(shown, Kind::Opu)
        || is_of(shown, Kind::Swr)
        || is_of(shown, Kind::Owr)
}

/// The cell of field `j`, from 1, and no bytes where the record carries none there.
#[inline(always)]
pub fn cell<'a>(shown: &RecordRef<'a>, j: u8) -> &'a [u8]
    ensures value { result.now ≡ unwrap_or (record_cell shown.now j) [] }
    ensures fits { IsRecord shown.now }
{
    match shown.cell(j) {
        Some(text) => text,
        None => b"",
    }
}

/// What a digit counts, and 0 of a space.
#[inline(always)]
fn digit(byte: u8) -> u64
    ensures value { result ≡ byte - 48 }
    ensures small { result ≤ 207 }
{
    u64::from(byte.saturating_sub(b'0'))
}

/// The number that the five digits of a share write, and 0 of a blank one.
#[inline(always)]
fn share_in(a: u8, b: u8, c: u8, d: u8, e: u8) -> u64
    ensures value { result ≡ number_of (a ∷ b ∷ c ∷ d ∷ e ∷ []) }
    ensures small { result < 10 ^ 10 }
{
    let front = 100 * digit(a) + 10 * digit(b) + digit(c);
    100 * front + 10 * digit(d) + digit(e)
}

/// The number that the digits of a share's cell write, and 0 of a blank one. It has no loop, so that the compiler puts it where it is
/// called.
#[inline(always)]
pub(crate) fn share_of(cell: &[u8]) -> u64
    requires { length cell.now ≡ 5 }
    ensures value { result ≡ number_of cell.now }
    ensures small { result < 10 ^ 10 }
{
    let [a, b, c, d, e] = cell else {
        unreachable!()
    };
    share_in(*a, *b, *c, *d, *e)
}

/// The number that the digits of a cell write, and 0 of a blank cell.
pub fn number_of(cell: &[u8]) -> u64
    requires { length cell.now ≤ 8 }
    ensures value { result ≡ number_of cell.now }
    ensures small { result < 10 ^ 10 }
{
    if let [a, b, c, d, e] = cell {
        return share_in(*a, *b, *c, *d, *e);
    }
    let mut number = 0;
    for byte in cell {
        number = 10 * number + digit(*byte);
    }
    number
}
