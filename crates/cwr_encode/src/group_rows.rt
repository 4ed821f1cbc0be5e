//! Groups that are put to a sink.

ghost use Rattle.std.specs.Prelude.{◌≡◌, ◌≤◌, false, length, map, IfErr, sum_by};
ghost use Rattle.std.specs.List.{AllByRecursion};
ghost use Rattle.cwr_shape.specs.Format.Numbers.{group_records, all_records};
ghost use Rattle.cwr_values.specs.Format.Rows.{lengths_of_value};
ghost use Rattle.cwr_devices.specs.Steps.Sinks.{Puts, has_failed, written_of};
ghost use Rattle.cwr_encode.specs.Steps.GroupTexts.{text_of_transactions, text_of_group, text_of_groups, HasFewRecords, IsFew};

use crate::rows::{put_row, put_transaction};
use cwr_devices::{Sink, SinkFault, Target};
use cwr_fields::SpelledPair;
use cwr_lines::CanonicalLine;
use cwr_values::{Group, Transmission};

/// How many records a group has, GRH and GRT counted.
fn group_records(group: &Group) -> u64
    requires transactions { length group.now.transactions ≤ 99999999 }
    requires records { group_records (map length group.now.transactions) ≤ 99999999 }
    ensures { result ≡ group_records (map length group.now.transactions) }
{
    let mut records: u64 = 2;
    let mut i = 0;
    while let Some(transaction) = group.transaction(i) {
        records = records.saturating_add(transaction.len() as u64);
        i += 1;
    }
    records
}

/// How many transactions a transmission has, and how many records, HDR and TRL counted.
pub(crate) fn totals(transmission: &Transmission) -> (u64, u64)
    requires groups { length transmission.now.groups ≤ 99999 }
    requires few { IsFew transmission.now }
    ensures transactions { result.0 ≡ sum_by length (lengths_of_value transmission.now) }
    ensures records { result.1 ≡ all_records (lengths_of_value transmission.now) }
{
    let mut transactions: u64 = 0;
    let mut records: u64 = 2;
    let mut i = 0;
    while let Some(group) = transmission.group(i) {
        transactions = transactions.saturating_add(group.len() as u64);
        records = records.saturating_add(group_records(group));
        i += 1;
    }
    (transactions, records)
}

/// Puts the canonical text of a group's transactions.
fn put_transactions<W: Target>(
    sink: &mut Sink<W>,
    line: &mut CanonicalLine,
    group: &Group,
) -> Result<(), SinkFault>
    requires unfailed { has_failed sink.old ≡ false }
    requires transactions { length group.now.transactions ≤ 99999999 }
    requires each { AllByRecursion (λ t. length t ≤ 999999) group.now.transactions }
    ensures puts { Puts W.contents W.failures (text_of_transactions group.now.transactions) result
        sink.old sink.new }
    ensures fault { IfErr result (λ f. f.written ≡ written_of sink.new) }
{
    let mut expected = SpelledPair::new();
    let mut i = 0;
    while let Some(transaction) = group.transaction(i) {
        put_transaction(sink, line, &mut expected, transaction, i as u64)?;
        i += 1;
    }
    Ok(())
}

/// Puts the canonical text of a group, which has that number.
fn put_group<W: Target>(
    sink: &mut Sink<W>,
    line: &mut CanonicalLine,
    group: &Group,
    number: u64,
) -> Result<(), SinkFault>
    requires unfailed { has_failed sink.old ≡ false }
    requires few { HasFewRecords group.now }
    ensures puts { Puts W.contents W.failures (text_of_group number group.now) result sink.old
        sink.new }
    ensures fault { IfErr result (λ f. f.written ≡ written_of sink.new) }
{
    let head = group.head().view();
    put_row(sink, line, &head, &[number])?;
    put_transactions(sink, line, group)?;
    let transactions = group.len() as u64;
    let records = group_records(group);
    let foot = group.foot().view();
    put_row(sink, line, &foot, &[number, transactions, records])
}

/// Puts the canonical text of a transmission's groups.
pub(crate) fn put_groups<W: Target>(
    sink: &mut Sink<W>,
    line: &mut CanonicalLine,
    transmission: &Transmission,
) -> Result<(), SinkFault>
    requires unfailed { has_failed sink.old ≡ false }
    requires groups { length transmission.now.groups ≤ 99999 }
    requires few { AllByRecursion HasFewRecords transmission.now.groups }
    ensures puts { Puts W.contents W.failures (text_of_groups transmission.now.groups) result
        sink.old sink.new }
    ensures fault { IfErr result (λ f. f.written ≡ written_of sink.new) }
{
    let mut i = 0;
    while let Some(group) = transmission.group(i) {
        put_group(sink, line, group, i as u64 + 1)?;
        i += 1;
    }
    Ok(())
}
