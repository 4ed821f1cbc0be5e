//! The rules, each as a question about a record of a transaction, which stands after `sequence` others.

ghost use Rattle.std.specs.Prelude.{◌≡◌, ◌+◌, ◌<◌, ◌^◌, List, take};
ghost use Rattle.std.specs.List.{list_any};
ghost use Rattle.cwr_lines.specs.Format.Records.{RecordValue};
ghost use Rattle.cwr_advice.specs.Format.Rules.{begins_with_agent, breaks, breaks_alone, collects_nowhere, has_composite_type, has_no_composite_type, in_chain};
ghost use Rattle.cwr_advice.specs.Format.Rules.{is_agent, is_header, is_stray_component, is_version, lacks_components, lacks_original, names_agent};
ghost use Rattle.cwr_advice.specs.Steps.Facts.{AreFacts};

use crate::characters::{has_html, has_lost_letter, is_unlike};
use crate::checked_cells::is_wrong;
use crate::days::is_to_come;
use crate::facts::Facts;
use crate::owners::{is_publisher, lacks_number, owns_over_half};
use crate::rules::AdviceRule;
use crate::said::Said;
use crate::shifts::is_shifted;
use crate::societies::lacks_society;
use crate::territories::{goes_over, stands_twice};
use crate::writers::{has_no_publisher, has_no_territory, has_nothing, names_other_writer};
use cwr_fields::{Kind, is_spaces};
use cwr_findings::{cell, is_of};
use cwr_lines::RecordRef;
use cwr_values::Transaction;

/// SPU, OPU: publisher sequence.
pub(crate) const CHAIN: u8 = 4;

/// SPU, OPU: publisher type.
const PUBLISHER_TYPE: u8 = 8;

/// NWR, REV: composite type.
const COMPOSITE_TYPE: u8 = 14;

/// NWR, REV: version type.
const VERSION_TYPE: u8 = 15;

/// Whether the record is the header of a work.
#[inline(always)]
fn is_header(shown: &RecordRef<'_>) -> bool
    ensures { result ≡ is_header shown.now }
{
    is_of(shown, Kind::Nwr) || is_of(shown, Kind::Rev)
}

/// Whether the type is that of an administrator or a sub-publisher.
fn names_agent(ty: &[u8]) -> bool
    ensures { result ≡ names_agent ty.now }
{
    ty == b"AM".as_slice() || ty == b"SE".as_slice()
}

/// Whether the record is an administrator or a sub-publisher.
pub(crate) fn is_agent(shown: &RecordRef<'_>) -> bool
    ensures { result ≡ is_agent shown.now }
{
    if !is_publisher(shown) {
        return false;
    }
    names_agent(cell(shown, PUBLISHER_TYPE))
}

/// Whether a record is a publisher of the chain with that sequence.
fn in_chain(sequence: &[u8], other: &RecordRef<'_>) -> bool
    ensures { result ≡ in_chain sequence.now other.now }
{
    if !is_publisher(other) {
        return false;
    }
    cell(other, CHAIN) == sequence
}

/// Whether one of the first `end` records is a publisher of the chain with that sequence. The last are asked first, since a chain's
/// publishers stand near one another: so all questions about a transaction together take at most as many steps as there are chains by
/// records.
fn chain_is_begun(transaction: &Transaction, end: usize, sequence: &[u8]) -> bool
    ensures { result ≡ list_any (in_chain sequence.now) (take end transaction.now) }
{
    let mut left = end;
    while left > 0 {
        left -= 1;
        if let Some(other) = transaction.record(left) {
            if in_chain(sequence, &other) {
                return true;
            }
        }
    }
    false
}

/// Whether the first publisher of a chain is an administrator or a sub-publisher.
fn begins_with_agent(transaction: &Transaction, sequence: usize, shown: &RecordRef<'_>) -> bool
    ensures { result ≡ begins_with_agent transaction.now sequence shown.now }
{
    if !is_agent(shown) {
        return false;
    }
    !chain_is_begun(transaction, sequence, cell(shown, CHAIN))
}

/// Whether publishers own shares, and no record says where they collect.
pub(crate) fn collects_nowhere(facts: &Facts) -> bool
    ensures { (t : List RecordValue) → AreFacts t facts.now → result ≡ collects_nowhere t }
{
    facts.has_owning_publisher && !facts.has_territory
}

/// Whether the record is the header of a work that has a composite type.
pub(crate) fn has_composite_type(header: &RecordRef<'_>) -> bool
    ensures { result ≡ has_composite_type header.now }
{
    if !is_header(header) {
        return false;
    }
    !is_spaces(cell(header, COMPOSITE_TYPE))
}

/// Whether the header of a work has a composite type, and the work no component.
fn lacks_components(facts: &Facts, shown: &RecordRef<'_>) -> bool
    ensures { (t : List RecordValue) → AreFacts t facts.now
        → result ≡ lacks_components t shown.now }
{
    has_composite_type(shown) && !facts.has_component
}

/// Whether the record is the header of a work that has no composite type.
pub(crate) fn has_no_composite_type(header: &RecordRef<'_>) -> bool
    ensures { result ≡ has_no_composite_type header.now }
{
    if !is_header(header) {
        return false;
    }
    is_spaces(cell(header, COMPOSITE_TYPE))
}

/// Whether the record is a component of a work whose header has no composite type.
fn is_stray_component(transaction: &Transaction, shown: &RecordRef<'_>) -> bool
    ensures { result ≡ is_stray_component transaction.now shown.now }
{
    if !is_of(shown, Kind::Com) {
        return false;
    }
    match transaction.record(0) {
        Some(header) => has_no_composite_type(&header),
        None => false,
    }
}

/// Whether the record is the header of a version of another work.
pub(crate) fn is_version(header: &RecordRef<'_>) -> bool
    ensures { result ≡ is_version header.now }
{
    if !is_header(header) {
        return false;
    }
    cell(header, VERSION_TYPE) == b"MOD".as_slice()
}

/// Whether the header of a work says that it is a version, and no record names the original.
fn lacks_original(facts: &Facts, shown: &RecordRef<'_>) -> bool
    ensures { (t : List RecordValue) → AreFacts t facts.now → result ≡ lacks_original t shown.now }
{
    is_version(shown) && !facts.has_original
}

/// Whether the record breaks the rule by itself, at that field where the rule judges a cell.
#[inline(always)]
pub(crate) fn breaks_alone(said: Said, rule: AdviceRule, shown: &RecordRef<'_>, field: u8) -> bool
    ensures { result ≡ breaks_alone said rule shown.now field }
{
    match rule {
        AdviceRule::A2f => lacks_number(shown, field),
        AdviceRule::A2g => lacks_society(shown, field),
        AdviceRule::A3a => owns_over_half(shown),
        AdviceRule::A7a => is_shifted(shown, field),
        AdviceRule::A4a
        | AdviceRule::A4b
        | AdviceRule::A4c
        | AdviceRule::A4d
        | AdviceRule::A8a
        | AdviceRule::A8b
        | AdviceRule::A8c
        | AdviceRule::A8d => is_wrong(rule, cell(shown, field)),
        AdviceRule::A8e => is_to_come(said.sent, cell(shown, field)),
        AdviceRule::A9a => is_unlike(said.characters, cell(shown, field)),
        AdviceRule::A9b => has_lost_letter(cell(shown, field)),
        AdviceRule::A9c => has_html(cell(shown, field)),
        _ => false,
    }
}

/// Whether the record, which stands after so many others, breaks the rule, at that field where the rule judges a cell.
pub(crate) fn breaks(
    said: Said,
    rule: AdviceRule,
    transaction: &Transaction,
    facts: &Facts,
    sequence: usize,
    shown: &RecordRef<'_>,
    field: u8,
) -> bool
    requires facts { AreFacts transaction.now facts.now }
    requires room { sequence + 1 < 2 ^ 64 }
    ensures { result ≡ breaks said rule transaction.now sequence shown.now field }
{
    match rule {
        AdviceRule::A1a => goes_over(transaction, facts, sequence, shown),
        AdviceRule::A1b => stands_twice(transaction, facts, sequence, shown),
        AdviceRule::A2a => begins_with_agent(transaction, sequence, shown),
        AdviceRule::A2b => collects_nowhere(facts),
        AdviceRule::A2c => has_no_publisher(transaction, facts, sequence, shown),
        AdviceRule::A2d => has_no_territory(transaction, sequence, shown),
        AdviceRule::A2e => has_nothing(transaction, sequence, shown),
        AdviceRule::A2h => names_other_writer(transaction, sequence, shown),
        AdviceRule::A3b => facts.writers_own_less(),
        AdviceRule::A3c => facts.state_no_performing(),
        AdviceRule::A3d => facts.state_no_mechanical(),
        AdviceRule::A3e => facts.state_no_synchronization(),
        AdviceRule::A6a => lacks_components(facts, shown),
        AdviceRule::A6b => is_stray_component(transaction, shown),
        AdviceRule::A6c => lacks_original(facts, shown),
        _ => breaks_alone(said, rule, shown, field),
    }
}
