//! The cells of a territory of a publisher or a writer.

ghost use Rattle.std.specs.Prelude.{◌≡◌, ◌<◌, true, if◌then◌else◌};
ghost use Rattle.cwr_lines.specs.Format.Records.{cell_named};
ghost use Rattle.cwr_advice.specs.Format.Rules.{collects_in, is_territory, is_territory_of};
ghost use Rattle.cwr_advice.specs.Steps.Facts.{AreCollectedBy, AreCollectedIf, HasCollectionFrom};

use crate::owners::Owned;
use cwr_fields::Kind;
use cwr_findings::{cell, is_of, number_of};
use cwr_lines::RecordRef;

/// SPT: pr collection share. Those of the other rights follow it.
const PUBLISHER_COLLECTION: u8 = 6;

/// SWT: pr collection share. Those of the other rights follow it.
const WRITER_COLLECTION: u8 = 5;

/// Whether the record is a territory of a publisher or of a writer.
#[inline(always)]
pub(crate) fn is_territory(shown: &RecordRef<'_>) -> bool
    ensures { result ≡ is_territory shown.now }
{
    is_of(shown, Kind::Spt) || is_of(shown, Kind::Swt)
}

/// 1 for a territory, and 0 for any other record.
pub(crate) fn count_of_territory(shown: &RecordRef<'_>) -> u64
    ensures { result ≡ (if is_territory shown.now then 1 else 0) }
{
    if is_territory(shown) { 1 } else { 0 }
}

/// The number of a territory.
pub(crate) fn code_of<'a>(shown: &RecordRef<'a>) -> &'a [u8]
    requires { is_territory shown.now ≡ true }
    ensures { result.now ≡ cell_named "tis code" shown.now }
{
    if is_of(shown, Kind::Spt) {
        cell(shown, 10)
    } else {
        cell(shown, 9)
    }
}

/// Whether a territory is included or excluded, by its sign.
fn sign_of<'a>(shown: &RecordRef<'a>) -> &'a [u8]
    requires { is_territory shown.now ≡ true }
    ensures { result.now ≡ cell_named "inclusion exclusion" shown.now }
{
    if is_of(shown, Kind::Spt) {
        cell(shown, 9)
    } else {
        cell(shown, 8)
    }
}

/// Whether the record is the territory of that number.
pub(crate) fn is_territory_of(code: &[u8], shown: &RecordRef<'_>) -> bool
    ensures { result ≡ is_territory_of code.now shown.now }
{
    if !is_territory(shown) {
        return false;
    }
    code_of(shown) == code
}

/// Whether it is, and isn't left out.
fn collects_in(code: &[u8], shown: &RecordRef<'_>) -> bool
    ensures { result ≡ collects_in code.now shown.now }
{
    if !is_territory_of(code, shown) {
        return false;
    }
    sign_of(shown) != b"E".as_slice()
}

/// The shares that stand in this field and in the next two.
#[inline(always)]
fn collection_from(shown: &RecordRef<'_>, first: u8) -> Owned
    requires few { first < 20 }
    requires there { HasCollectionFrom shown.now.kind first }
    ensures { AreCollectedBy shown.now result }
{
    Owned {
        performing: number_of(cell(shown, first)),
        mechanical: number_of(cell(shown, first + 1)),
        synchronization: number_of(cell(shown, first + 2)),
    }
}

/// What is collected in a territory.
#[inline(always)]
pub(crate) fn collection_of(shown: &RecordRef<'_>) -> Owned
    requires { is_territory shown.now ≡ true }
    ensures { AreCollectedBy shown.now result }
{
    if is_of(shown, Kind::Spt) {
        collection_from(shown, PUBLISHER_COLLECTION)
    } else {
        collection_from(shown, WRITER_COLLECTION)
    }
}

/// What the record collects in the territory of that number: nothing, where it is another record, or that is left out.
pub(crate) fn collected_by(code: &[u8], shown: &RecordRef<'_>) -> Owned
    ensures { AreCollectedIf code.now shown.now result }
{
    if !collects_in(code, shown) {
        return Owned {
            performing: 0,
            mechanical: 0,
            synchronization: 0,
        };
    }
    collection_of(shown)
}
