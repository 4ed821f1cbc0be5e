//! From the value of a line to an item, and to an encoder.

ghost use Rattle.std.specs.Prelude.{◌≡◌, ◌+◌, ◌≤◌, ◌<◌, ℕ, List, Option, length, drop, map, min, IfOk, IfErr, OnErr, None, Some, false};
ghost use Rattle.std.specs.Prelude.{option_map};
ghost use Rattle.json.specs.Find.{as_array};
ghost use Rattle.json.specs.Value.{items_view, members_view, value_view};
ghost use Rattle.cwr_judge.specs.Format.Items.{item_records};
ghost use Rattle.cwr_lines.specs.Format.Records.{RecordValue};
ghost use Rattle.cwr_values.specs.Format.Values.{symbol_of};
ghost use Rattle.cwr_json.specs.declared.encodings.Encoding.{Encoding};
ghost use Rattle.cwr_json.specs.Format.Forms.{AreOnlyRecords, AreRecordsData, IsItemData, records_key, told};
ghost use Rattle.cwr_encode.specs.Steps.Encoders.{AddsRecords, OfEncoded, encoder_limits, is_stopped};
ghost use Rattle.cwr_write.specs.Format.AloneKinds.{IsAlone};
ghost use Rattle.cwr_write.specs.Steps.Members.{IsDataAt, IsKinded, IsOnlyAt, SaysAt};
ghost use Rattle.cwr_write.specs.Format.Faults.{IsAmong, IsItemReason, IsListReason, IsOfData, NoItem};
ghost use Rattle.cwr_write.specs.Format.Imports.{given_records};
ghost use Rattle.cwr_write.specs.Steps.Taking.{IsFaultOf, IsLine, IsOfList, IsOwn, JudgesGiven, OnLine};

use crate::hints::lack_of;
use crate::records::{MemberList, of_record, record_of, says};
use crate::refusals::{Key, LineFault, Why, of_key, of_line};
use cwr_devices::Target;
use cwr_encode::{EncodeFault, Encoder};
use cwr_fields::Kind;
use cwr_json::Encoding;
use cwr_lines::Record;
use cwr_values::{Item, PushFault, Transaction};
use json::Value;
use std::alloc::Global;

/// Why an item isn't made or written.
#[derive(Clone, Debug, Drop)]
pub(crate) enum ItemFault {
    /// The line isn't taken.
    Line(LineFault),
    /// Memory was refused.
    Memory,
    /// The writer failed.
    Writer {
        /// How many bytes were written.
        written: u64,
    },
}

/// The first member from that one on that says something, or how many there are.
fn first_said(members: &MemberList<'_>, from: usize) -> usize
    requires { from ≤ length members.now.items }
    ensures bounds { (from ≤ result) × (result ≤ length members.now.items) }
    ensures same { told (members_view (drop from members.now.items))
        ≡ told (members_view (drop result members.now.items)) }
    ensures said { result < length members.now.items → SaysAt members.now.items result }
{
    let mut at = from;
    while at < members.len() {
        let member = &members[at];
        if says(member.0, &member.1) {
            return at;
        }
        at += 1;
    }
    at
}

/// Where the list of records stands among a line's members: they have no other that says something.
fn list_in(members: &MemberList<'_>) -> Result<usize, LineFault>
    ensures ok { IfOk result (IsOnlyAt members.now.items records_key) }
    ensures err { OnErr result ((encoding : Encoding) (rs : List RecordValue)
        → ¬ AreOnlyRecords encoding (told (members_view members.now.items)) rs) }
    ensures why { IfErr result (λ f. IsOfData f.why) }
    ensures reason { IfErr result (λ f. (f.record ≡ 0) × (f.kind ≡ None)
        × IsListReason (told (members_view members.now.items)) f.key f.why) }
{
    let at = first_said(members, 0);
    let Some(member) = members.get(at) else {
        return Err(of_key("records", Why::Missing));
    };
    if member.0 != "records" {
        return Err(of_key(member.0, Why::UnknownKey));
    }
    let more = first_said(members, at + 1);
    match members.get(more) {
        None => Ok(at),
        Some(other) if other.0 != "records" => Err(of_key(other.0, Why::UnknownKey)),
        Some(other) => Err(of_key(other.0, Why::Repeated)),
    }
}

/// The fault of a record that can't be added.
fn push_fault(number: u32, kind: Kind, fault: PushFault) -> ItemFault
    ensures own { IsOwn result }
    ensures misplaced { IsLine result → fault ≡ PushFault.Misplaced }
    ensures told { OnLine result (λ f. (f.record ≡ number) × (f.why ≡ Why.Misplaced)
        × (f.kind ≡ Some kind) × (f.key ≡ Key.None)) }
{
    match fault {
        PushFault::Memory => ItemFault::Memory,
        PushFault::Misplaced => ItemFault::Line(of_record(
            number,
            Some(kind),
            Key::None,
            Why::Misplaced,
        )),
    }
}

/// The number of a record after so many, as faults tell it.
fn number_after(records: usize) -> u32
    ensures { result ≡ min (records + 1) 4294967295 }
{
    u32::try_from(records).unwrap_or(u32::MAX).saturating_add(1)
}

/// The transaction that values are, of which the first is that record.
fn transaction_of(
    alloc: Global,
    encoding: Encoding,
    values: &[Value<'_>],
    first: &Record,
) -> Result<Transaction, ItemFault>
    requires some { 0 < length values.now }
    requires first { IsDataAt encoding values.now 0 first.now }
    requires inside { ¬ IsAlone first.now.kind }
    ensures ok { IfOk result
        (λ transaction. AreRecordsData encoding (items_view values.now) transaction) }
    ensures kinded { IfOk result (λ transaction. IsKinded (Item.Transaction transaction)) }
    ensures err { IfErr result IsOwn }
    ensures none { IfErr result
        (λ fault. IsLine fault → NoItem (AreRecordsData encoding (items_view values.now))) }
    ensures reason { IfErr result
        (λ fault. OnLine fault (IsAmong encoding (map value_view values.now))) }
{
    let mut transaction = match Transaction::new(alloc, first.view()) {
        Ok(transaction) => transaction,
        Err(fault) => return Err(push_fault(1, first.view().kind(), fault)),
    };
    for i in 1..values.len() {
        let number = number_after(transaction.len());
        let record = match record_of(encoding, number, &values[i]) {
            Ok(record) => record,
            Err(fault) => return Err(ItemFault::Line(fault)),
        };
        if let Err(fault) = transaction.push(record.view()) {
            return Err(push_fault(number, record.view().kind(), fault));
        }
    }
    Ok(transaction)
}

/// What is told of a second record beside one that stands alone: what is wrong with it itself comes first.
fn beside(encoding: Encoding, values: &[Value<'_>], first: &Record) -> LineFault
    requires more { 1 < length values.now }
    requires alone { IsAlone first.now.kind }
    requires data { IsDataAt encoding values.now 0 first.now }
    ensures why { IsOfData result.why }
    ensures reason { IsAmong encoding (map value_view values.now) result }
{
    match record_of(encoding, 2, &values[1]) {
        Ok(_) => of_record(2, Some(first.view().kind()), Key::None, Why::Alone),
        Err(fault) => fault,
    }
}

/// The item that is one record.
fn item_alone(
    encoding: Encoding,
    kind: Kind,
    values: &[Value<'_>],
    first: Record,
) -> Result<Item, ItemFault>
    requires some { 0 < length values.now }
    requires kind { (first.kind ≡ kind) × IsAlone kind }
    requires data { IsDataAt encoding values.now 0 first }
    ensures ok { IfOk result
        (λ item. AreRecordsData encoding (items_view values.now) (item_records item)) }
    ensures kinded { IfOk result IsKinded }
    ensures err { IfErr result IsOwn }
    ensures none { IfErr result (λ fault. NoItem (AreRecordsData encoding (items_view values.now))) }
    ensures reason { IfErr result
        (λ fault. OnLine fault (IsAmong encoding (map value_view values.now))) }
{
    if values.len() > 1 {
        return Err(ItemFault::Line(beside(encoding, values, &first)));
    }
    Ok(match kind {
        Kind::Hdr => Item::Opened(first.view().to_control()),
        Kind::Grh => Item::GroupOpened(first.view().to_control()),
        Kind::Grt => Item::GroupClosed(first.view().to_control()),
        _ => Item::Ended,
    })
}

/// The item that values are.
fn item_of(alloc: Global, encoding: Encoding, values: &[Value<'_>]) -> Result<Item, ItemFault>
    ensures ok { IfOk result
        (λ item. AreRecordsData encoding (items_view values.now) (item_records item)) }
    ensures kinded { IfOk result IsKinded }
    ensures err { IfErr result IsOwn }
    ensures none { IfErr result
        (λ fault. IsLine fault → NoItem (AreRecordsData encoding (items_view values.now))) }
    ensures reason { IfErr result
        (λ fault. OnLine fault (IsOfList encoding (map value_view values.now))) }
{
    let Some(first) = values.first() else {
        return Err(ItemFault::Line(of_key("records", Why::Empty)));
    };
    let record = match record_of(encoding, 1, first) {
        Ok(record) => record,
        Err(fault) => return Err(ItemFault::Line(fault)),
    };
    let kind = record.view().kind();
    match kind {
        Kind::Hdr | Kind::Grh | Kind::Grt | Kind::Trl => item_alone(encoding, kind, values, record),
        _ => match transaction_of(alloc, encoding, values, &record) {
            Ok(transaction) => Ok(Item::Transaction(transaction)),
            Err(fault) => Err(fault),
        },
    }
}

/// The values of a list.
fn values_in<'v, 'a>(value: &'v Value<'a>) -> Option<&'v [Value<'a>]>
    ensures { option_map (λ vs. items_view vs.now) result ≡ as_array (value_view value.now) }
{
    if let Value::Array(values) = value {
        Some(values.as_slice())
    } else {
        None
    }
}

/// The item that the value of a line is.
pub(crate) fn item_in(
    alloc: Global,
    encoding: Encoding,
    value: &Value<'_>,
) -> Result<Item, ItemFault>
    ensures ok { IfOk result
        (λ item. IsItemData encoding (value_view value.now) (item_records item)) }
    ensures kinded { IfOk result IsKinded }
    ensures err { IfErr result IsOwn }
    ensures none { IfErr result
        (λ fault. IsLine fault → NoItem (IsItemData encoding (value_view value.now))) }
    ensures reason { IfErr result
        (λ fault. OnLine fault (IsItemReason encoding (value_view value.now))) }
{
    let Value::Object(members) = value else {
        return Err(ItemFault::Line(of_line(Why::NotAnObject)));
    };
    let at = match list_in(members) {
        Ok(at) => at,
        Err(fault) => return Err(ItemFault::Line(fault)),
    };
    let Some(member) = members.get(at) else {
        return Err(ItemFault::Line(of_key("records", Why::Missing)));
    };
    let Some(values) = values_in(&member.1) else {
        return Err(ItemFault::Line(of_key("records", Why::NotAList)));
    };
    item_of(alloc, encoding, values)
}

/// What is told of an encoder's fault with the item.
pub(crate) fn encode_fault(fault: EncodeFault, item: &Item) -> ItemFault
    ensures { IsFaultOf item.now fault result }
{
    match fault {
        EncodeFault::OutOfOrder => ItemFault::Line(of_line(Why::OutOfOrder)),
        EncodeFault::WrongKind => ItemFault::Line(of_line(Why::WrongKind)),
        EncodeFault::Incomplete => ItemFault::Line(of_line(Why::Incomplete(lack_of(item)))),
        EncodeFault::Limit(limit) => ItemFault::Line(of_line(Why::Limit(limit))),
        EncodeFault::Writer { written } => ItemFault::Writer { written },
    }
}

/// Writes an item, unless it is TRL, which the encoder makes.
pub(crate) fn write_item<W: Target>(
    item: &Item,
    encoder: &mut Encoder<W>,
) -> Result<(), EncodeFault>
    requires { is_stopped encoder.old ≡ false }
    ensures adds { AddsRecords W.contents W.failures (given_records item.now) result encoder.old
        encoder.new }
    ensures limits { encoder_limits encoder.new ≡ encoder_limits encoder.old }
    ensures judged { OfEncoded W.contents encoder.old (λ records.
        JudgesGiven (encoder_limits encoder.old) item.now (map symbol_of records) result) }
{
    match item {
        Item::Opened(record) => encoder.open(&record.to_record()),
        Item::GroupOpened(record) => encoder.group(&record.to_record()),
        Item::Transaction(transaction) => encoder.transaction(transaction),
        Item::GroupClosed(record) => encoder.end_group(&record.to_record()),
        Item::Ended => Ok(()),
    }
}
