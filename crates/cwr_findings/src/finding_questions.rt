//! The rules, each as a question about a record of a transaction, which stands after `sequence` others.

ghost use Rattle.std.specs.Prelude.{◌≡◌, ℕ, ◌+◌, ◌<◌, ◌&&◌, ◌==◌, ◌∷◌, [], not, true, IsTrue, List, take, Some, option_map, slice_get};
ghost use Rattle.std.specs.List.{list_any};
ghost use Rattle.cwr_fields.specs.Format.Bytes.{is_spaces};
ghost use Rattle.cwr_fields.specs.Format.Iswc.{is_iswc};
ghost use Rattle.cwr_lines.specs.Format.Records.{RecordValue};
ghost use Rattle.cwr_findings.specs.declared.rules.Rule.TheVariants.{V1, V2, V3, V4, V5, V6, V7, V8, V9, V10, V11};
ghost use Rattle.cwr_findings.specs.Format.Findings.{breaks, counts_others, ends_before_start, is_agreement, is_blank, is_off, is_work};
ghost use Rattle.cwr_findings.specs.Steps.Walks.{AreTotals, IsBefore, KnowsNumbersOf, capped, is_number};

use crate::before::Before;
use crate::named_cells::{
    COMPONENT_COUNT, END_DATE, EXCERPT_TYPE, NAMED_ISWC, PUBLISHER_OF_WRITER, START_DATE,
    TERRITORY_NUMBER, WORK_ISWC, cell, is_of, number_of,
};
use crate::publishers::Publishers;
use crate::registered::Registered;
use crate::rules::Rule;
use crate::shares::{Sides, is_off};
use crate::totals::TransactionTotals;
use cwr_fields::{Kind, are_same, is_spaces, iswc_ok};
use cwr_lines::RecordRef;

/// Whether the records begin with the header of a work.
#[inline(always)]
fn is_work(transaction: &Registered<'_>) -> bool
    ensures { result ≡ is_work transaction.now }
{
    matches!(transaction.kind(), Some(Kind::Nwr | Kind::Rev))
}

/// Whether the records begin with the header of an agreement.
#[inline(always)]
fn is_agreement(transaction: &Registered<'_>) -> bool
    ensures { result ≡ is_agreement transaction.now }
{
    matches!(transaction.kind(), Some(Kind::Agr))
}

/// Whether the work code isn't blank and isn't right.
fn is_wrong_iswc(iswc: &[u8]) -> bool
    ensures { result ≡ (not (is_spaces iswc.now) && not (is_iswc iswc.now)) }
{
    !is_spaces(iswc) && !iswc_ok(iswc)
}

/// Whether the record's work code isn't blank and isn't right.
#[inline(always)]
pub(crate) fn has_wrong_iswc(shown: &RecordRef<'_>) -> bool
    ensures { (t : List RecordValue) (k : ℕ) → result ≡ breaks V1 t k shown.now }
{
    match shown.kind() {
        Kind::Nwr | Kind::Rev => is_wrong_iswc(cell(shown, WORK_ISWC)),
        Kind::Ewt | Kind::Ver | Kind::Com => is_wrong_iswc(cell(shown, NAMED_ISWC)),
        _ => false,
    }
}

/// Whether a quick test finds two interested parties' numbers to be the same. A no says nothing.
#[inline(always)]
fn are_surely_same(number: &[u8], other: &[u8]) -> bool
    ensures { IsTrue result → number.now ≡ other.now }
{
    if number.len() != 9 || other.len() != 9 {
        return false;
    }
    are_same(&number[..8], &other[..8]) && number[8] == other[8]
}

/// Whether the number is that of a party, where there is one.
#[inline(always)]
pub(crate) fn is_number(number: &[u8], party: Option<&[u8]>) -> bool
    ensures { result ≡ is_number number.now (option_map (λ cell. cell.now) party.entry) }
{
    match party {
        Some(other) => {
            if are_surely_same(number, other) {
                return true;
            }
            number == other
        }
        None => false,
    }
}

/// Whether a territory names another party than the nearest publisher or writer before it; also where there is none.
#[inline(always)]
pub(crate) fn names_another_party(shown: &RecordRef<'_>, before: &Before<'_>) -> bool
    ensures { (t : List RecordValue) (k : ℕ) → is_work t ≡ true → IsBefore (take k t) before.now
        → result ≡ breaks V2 t k shown.now }
{
    match shown.kind() {
        Kind::Spt => !is_number(cell(shown, TERRITORY_NUMBER), before.publisher),
        Kind::Swt => !is_number(cell(shown, TERRITORY_NUMBER), before.writer),
        _ => false,
    }
}

/// Whether PWR names a publisher that the work hasn't.
fn names_no_publisher(
    transaction: &Registered<'_>,
    totals: &TransactionTotals,
    publishers: &Publishers<'_>,
    shown: &RecordRef<'_>,
) -> bool
    requires totals { AreTotals transaction.now totals.now }
    requires publishers { KnowsNumbersOf (take totals.now.publishers_end transaction.now)
        publishers.now }
    ensures { (k : ℕ) → is_work transaction.now ≡ true
        → result ≡ breaks V7 transaction.now k shown.now }
{
    is_of(shown, Kind::Pwr)
        && !publishers.have(
            transaction,
            totals.publishers_end,
            cell(shown, PUBLISHER_OF_WRITER),
        )
}

/// Whether the header of a work has no excerpt type.
fn has_no_excerpt_type(transaction: &Registered<'_>) -> bool
    requires { is_work transaction.now ≡ true }
    ensures { result ≡ list_any (is_blank "excerpt type") (take 1 transaction.now) }
{
    match transaction.record(0) {
        Some(header) => is_spaces(cell(&header, EXCERPT_TYPE)),
        None => false,
    }
}

/// Whether the record is the header of a work, and the sum of its shares in a right is neither nothing nor about the
/// whole.
#[inline(always)]
fn is_off_in(transaction: &Registered<'_>, sequence: usize, total: u64) -> bool
    ensures { (n : ℕ) → total ≡ capped n
        → result ≡ (is_work transaction.now && (sequence == 0) && is_off n) }
{
    is_work(transaction) && sequence == 0 && is_off(total)
}

/// Whether the header of a work counts its components, and not so many.
fn counts_others(header: &RecordRef<'_>, components: u64) -> bool
    requires { is_work (header.now ∷ []) ≡ true }
    ensures { (n : ℕ) → components ≡ capped n → result ≡ counts_others header.now n }
{
    let count = cell(header, COMPONENT_COUNT);
    !is_spaces(count) && number_of(count) != components
}

/// Whether the header of an agreement has both dates, and its end is before its start.
pub(crate) fn ends_before_start(header: &RecordRef<'_>) -> bool
    requires { is_agreement (header.now ∷ []) ≡ true }
    ensures { result ≡ ends_before_start header.now }
{
    let start = number_of(cell(header, START_DATE));
    let end = number_of(cell(header, END_DATE));
    end != 0 && end < start
}

/// Whether the record is the first TER of a block in which one side has more than the whole.
fn begins_block_over_whole(
    transaction: &Registered<'_>,
    before: &Before<'_>,
    sequence: usize,
    shown: &RecordRef<'_>,
) -> bool
    requires before { IsBefore (take sequence transaction.now) before.now }
    requires there { slice_get transaction.now sequence ≡ Some shown.now }
    ensures { is_agreement transaction.now ≡ true
        → result ≡ breaks V11 transaction.now sequence shown.now }
{
    if !is_of(shown, Kind::Ter) {
        return false;
    }
    !before.after_territory && Sides::of_block(transaction, sequence).exceed_whole()
}

/// Whether the record, which stands after so many others, breaks the rule.
pub(crate) fn breaks(
    rule: Rule,
    transaction: &Registered<'_>,
    totals: &TransactionTotals,
    publishers: &Publishers<'_>,
    before: &Before<'_>,
    sequence: usize,
    shown: &RecordRef<'_>,
) -> bool
    requires totals { AreTotals transaction.now totals.now }
    requires publishers { KnowsNumbersOf (take totals.now.publishers_end transaction.now)
        publishers.now }
    requires before { IsBefore (take sequence transaction.now) before.now }
    requires there { slice_get transaction.now sequence ≡ Some shown.now }
    ensures { result ≡ breaks rule transaction.now sequence shown.now }
{
    match rule {
        Rule::V1 => has_wrong_iswc(shown),
        Rule::V2 => is_work(transaction) && names_another_party(shown, before),
        Rule::V3 => is_off_in(transaction, sequence, totals.ownership.performing),
        Rule::V4 => is_off_in(transaction, sequence, totals.ownership.mechanical),
        Rule::V5 => is_off_in(transaction, sequence, totals.ownership.synchronization),
        Rule::V6 => is_work(transaction) && sequence == 0 && !totals.has_author,
        Rule::V7 => is_work(transaction)
            && names_no_publisher(transaction, totals, publishers, shown),
        Rule::V8 => is_work(transaction)
            && is_of(shown, Kind::Ewt)
            && has_no_excerpt_type(transaction),
        Rule::V9 => is_work(transaction)
            && sequence == 0
            && counts_others(shown, totals.components),
        Rule::V10 => is_agreement(transaction) && sequence == 0 && ends_before_start(shown),
        Rule::V11 => is_agreement(transaction)
            && begins_block_over_whole(transaction, before, sequence, shown),
    }
}
