//! The findings of a text in memory, as a list of numbers.

ghost use Rattle.std.specs.Prelude.{◌≡◌, ◌+◌, ◌≤◌, ◌∷◌, [], ◌++◌, List, length, map, IfSome, IfOk, Some};
ghost use Rattle.cwr_judge.specs.Format.Items.{item_records};
ghost use Rattle.cwr_tools.specs.Format.Verdicts.{IsVerdictOf};
ghost use Rattle.cwr_calls.specs.Format.FindingNumbers.{finding_in_c, item_findings, rule_number};
ghost use Rattle.cwr_calls.specs.Steps.Listed.{Lists, ListsFrom, PutsMore, numbers_with};
ghost use Rattle.cwr_decode.specs.Steps.TakenLines.{PutsAt};

use crate::verdicts::level_letter;
use cwr_decode::{ReadFault, Reading};
use cwr_devices::{InMemory, Source};
use cwr_findings::{Finding, Rule, findings};
use cwr_shape::Limits;
use cwr_tools::{ToolFault, Verdict};
use cwr_values::{Item, Transaction};
use std::alloc::Global;

/// A rule that a record of an accepted transaction breaks.
#[repr(C)]
#[derive(Clone, Copy, Debug, PartialEq, Eq)]
pub struct CwrFinding {
    /// The number of the record, from 1.
    pub rec: u32,
    /// The number of the field, from 1.
    pub field: u32,
    /// The number of the rule: 1 for V1, up to 11.
    pub rule: u32,
    /// How much it concerns: `T`, `R` or `F`, in ASCII.
    pub level: u32,
}

/// The number in a rule's name.
fn rule_number(rule: Rule) -> u32
    ensures { result ≡ rule_number rule }
{
    match rule {
        Rule::V1 => 1,
        Rule::V2 => 2,
        Rule::V3 => 3,
        Rule::V4 => 4,
        Rule::V5 => 5,
        Rule::V6 => 6,
        Rule::V7 => 7,
        Rule::V8 => 8,
        Rule::V9 => 9,
        Rule::V10 => 10,
        Rule::V11 => 11,
    }
}

/// A finding in a transaction before which so many records stand. `None` where the record's number is too large.
fn finding_in_c(before: u32, found: &Finding) -> Option<CwrFinding>
    ensures { IfSome result (λ made. made ≡ finding_in_c before found.now) }
{
    let rec = before
        .checked_add(u32::try_from(found.rec).ok()?)?
        .checked_add(1)?;
    Some(CwrFinding {
        rec,
        field: found.field as u32,
        rule: rule_number(found.rule),
        level: level_letter(found.level),
    })
}

/// Puts a finding at its place, where there is room for it.
fn put_finding(entries: &mut [CwrFinding], at: usize, finding: CwrFinding)
    ensures { PutsAt at finding entries.old entries.new }
{
    if at < entries.len() {
        entries[at] = finding;
    }
}

/// Puts findings from a place on, as far as there is room. The answer is the place after them. `None` where a number is too large.
fn put_findings(
    before: u32,
    found: &[Finding],
    entries: &mut [CwrFinding],
    start: usize,
) -> Option<usize>
    ensures { IfSome result
        (λ end. PutsMore (map (finding_in_c before) found.now) entries.old start entries.new end) }
{
    let mut at = start;
    for one in found {
        put_finding(entries, at, finding_in_c(before, one)?);
        at = at.checked_add(1)?;
    }
    Some(at)
}

/// Puts the findings of a transaction before which so many records stand. `None` where memory was refused.
fn put_transaction(
    alloc: Global,
    before: u32,
    transaction: &Transaction,
    entries: &mut [CwrFinding],
    at: usize,
) -> Option<usize>
    ensures { IfSome result (λ end. PutsMore
        (item_findings before (Item.Transaction transaction.now)) entries.old at entries.new end) }
{
    match findings(alloc, transaction) {
        Ok(found) => put_findings(before, found.as_slice(), entries, at),
        Err(_) => None,
    }
}

/// Puts the findings of an item before which so many records stand. `None` where memory was refused.
fn put_item(
    alloc: Global,
    before: u32,
    item: &Item,
    entries: &mut [CwrFinding],
    at: usize,
) -> Option<usize>
    ensures { IfSome result
        (λ end. PutsMore (item_findings before item.now) entries.old at entries.new end) }
{
    match item {
        Item::Transaction(transaction) => put_transaction(alloc, before, transaction, entries, at),
        Item::Opened(_) | Item::GroupOpened(_) | Item::GroupClosed(_) | Item::Ended => Some(at),
    }
}

/// How many groups, transactions and records were handed out.
#[derive(Clone, Copy, Debug)]
struct Numbers {
    groups: u32,
    transactions: u32,
    records: u32,
}

/// Nothing was handed out.
fn no_numbers() -> Numbers
    ensures { result ≡ record { groups = 0; transactions = 0; records = 0 } }
{
    Numbers {
        groups: 0,
        transactions: 0,
        records: 0,
    }
}

/// Counts one item more.
fn count(numbers: &mut Numbers, item: &Item)
    requires groups { numbers.old.groups ≤ 199999998 }
    requires transactions { numbers.old.transactions ≤ 199999998 }
    requires records { numbers.old.records + length (item_records item.now) ≤ 99999999 }
    ensures { numbers.new ≡ numbers_with numbers.old item.now }
{
    match item {
        Item::Opened(_) | Item::GroupClosed(_) | Item::Ended => numbers.records += 1,
        Item::GroupOpened(_) => {
            numbers.groups += 1;
            numbers.records += 1;
        }
        Item::Transaction(transaction) => {
            numbers.transactions += 1;
            numbers.records += transaction.len() as u32;
        }
    }
}

/// The verdict on a text at whose reading this fault was reported, or the fault that ends the run.
fn verdict_of(fault: ReadFault) -> Result<Verdict, ToolFault>
    ensures { IsVerdictOf fault result }
{
    match fault {
        ReadFault::Refused(refusal) => Ok(Verdict::Refused(refusal)),
        ReadFault::Truncated { records } => Ok(Verdict::Truncated { records }),
        ReadFault::Reader => Err(ToolFault::Reader),
        ReadFault::Memory => Err(ToolFault::Memory),
    }
}

/// Reads a text up to its end, and puts the findings of each transaction that comes before that, as far as there is room. Answers how
/// many these are, and the verdict.
fn list_items<R: Source>(
    alloc: Global,
    limits: Limits,
    reader: &mut R,
    entries: &mut [CwrFinding],
) -> (usize, Result<Verdict, ToolFault>)
    ensures { ListsFrom limits (R.remaining reader.old) (R.remaining reader.new) entries.old
        entries.new result.0 result.1 }
{
    let mut reading = Reading::new(alloc, limits, reader);
    let mut numbers = no_numbers();
    let mut at = 0;
    'items: loop {
        match reading.next_item() {
            Ok(Some(item)) => {
                let Some(end) = put_item(alloc, numbers.records, &item, entries, at) else {
                    return (at, Err(ToolFault::Memory));
                };
                at = end;
                count(&mut numbers, &item);
            }
            Ok(None) => {
                return (
                    at,
                    Ok(Verdict::Good {
                        groups: numbers.groups,
                        transactions: numbers.transactions,
                        records: numbers.records,
                    }),
                );
            }
            Err(fault) => return (at, verdict_of(fault)),
        }
    }
}

/// Reads a text in memory so.
pub(crate) fn list_findings(
    alloc: Global,
    limits: Limits,
    text: &[u8],
    entries: &mut [CwrFinding],
) -> (usize, Result<Verdict, ToolFault>)
    ensures { Lists limits text.now entries.old entries.new result.0 result.1 }
{
    let mut reader = InMemory::new(text);
    list_items(alloc, limits, &mut reader, entries)
}
