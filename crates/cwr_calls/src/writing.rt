//! Writing a transmission from the lines of its records, in whatever spelling and with whatever numbers.

ghost use Rattle.std.specs.Prelude.{◌≡◌, ◌≢◌, ◌∷◌, [], List, OnOk, IfOk, IfErr, Ok, Some};
ghost use Rattle.cwr_lines.specs.Format.Records.{RecordValue};
ghost use Rattle.cwr_lines.specs.declared.lines.LineEnd.TheVariants.{Open};
ghost use Rattle.cwr_lines.specs.Steps.Held.{held_kind};
ghost use Rattle.cwr_calls.specs.Format.LineRecords.{CarryRecords};
ghost use Rattle.cwr_calls.specs.Format.WrittenTexts.{IsCanonicalOf};
ghost use Rattle.cwr_calls.specs.Steps.Writings.{EndsWriting, GoesOn, HasCanonical, HoldsRecord, WritesLine, WritesLines, WritesOn, held_records};

use crate::verdicts::limit_number;
use cwr_decode::first_line;
use cwr_devices::{Counted, Target};
use cwr_encode::{EncodeFault, Encoder};
use cwr_fields::Kind;
use cwr_lines::{CutLine, LineBuf, Record, RecordRef};
use cwr_shape::Limits;
use cwr_values::{PushFault, Transaction};
use std::alloc::Global;

/// Why no transmission was written.
#[derive(Clone, Copy, Debug, PartialEq, Eq)]
pub(crate) enum WriteFault {
    /// A line carries no record.
    NotARecord,
    /// The encoder refused a record outside transactions.
    Encode(EncodeFault),
    /// The encoder refused the transaction before the line, which has so many records.
    Held(EncodeFault, u64),
    /// A record can't stand there.
    Misplaced,
    /// Memory was refused.
    Memory,
}

/// What an encoder answered.
fn encoded(answer: Result<(), EncodeFault>) -> Result<(), WriteFault>
    ensures { OnOk result (answer ≡ Ok tt) }
{
    match answer {
        Ok(()) => Ok(()),
        Err(fault) => Err(WriteFault::Encode(fault)),
    }
}

/// What an encoder answered to a transaction of so many records.
fn encoded_held(answer: Result<(), EncodeFault>, records: u64) -> Result<(), WriteFault>
    ensures { OnOk result (answer ≡ Ok tt) }
{
    match answer {
        Ok(()) => Ok(()),
        Err(fault) => Err(WriteFault::Held(fault, records)),
    }
}

/// Writes HDR.
fn put_opening<W: Target>(encoder: &mut Encoder<W>, value: &Record) -> Result<(), WriteFault>
    ensures { OnOk result (GoesOn W.contents (value.now ∷ []) encoder.old encoder.new) }
{
    encoded(encoder.open(value))
}

/// Writes GRH.
fn put_head<W: Target>(encoder: &mut Encoder<W>, value: &Record) -> Result<(), WriteFault>
    ensures { OnOk result (GoesOn W.contents (value.now ∷ []) encoder.old encoder.new) }
{
    encoded(encoder.group(value))
}

/// Writes GRT.
fn put_foot<W: Target>(encoder: &mut Encoder<W>, value: &Record) -> Result<(), WriteFault>
    ensures { OnOk result (GoesOn W.contents (value.now ∷ []) encoder.old encoder.new) }
{
    encoded(encoder.end_group(value))
}

/// Writes a whole transaction.
fn put_whole<W: Target>(encoder: &mut Encoder<W>, value: &Transaction) -> Result<(), WriteFault>
    ensures { OnOk result (GoesOn W.contents value.now encoder.old encoder.new) }
{
    encoded_held(encoder.transaction(value), value.len() as u64)
}

/// Writes the transaction that is held.
fn end_transaction<W: Target>(
    encoder: &mut Encoder<W>,
    held: Option<Transaction>,
) -> Result<(), WriteFault>
    ensures { OnOk result (GoesOn W.contents (held_records held) encoder.old encoder.new) }
{
    match held {
        Some(transaction) => put_whole(encoder, &transaction),
        None => Ok(()),
    }
}

/// Writes a record that stands outside transactions.
fn put_outside<W: Target>(encoder: &mut Encoder<W>, value: &Record) -> Result<(), WriteFault>
    ensures { OnOk result (GoesOn W.contents (value.now ∷ []) encoder.old encoder.new) }
{
    match value.view().kind() {
        Kind::Hdr => put_opening(encoder, value),
        Kind::Grh => put_head(encoder, value),
        _ => put_foot(encoder, value),
    }
}

/// Writes the transaction that is held, and after it a record that stands outside transactions.
fn end_and_put<W: Target>(
    encoder: &mut Encoder<W>,
    held: Option<Transaction>,
    value: &Record,
) -> Result<(), WriteFault>
    ensures { OnOk result
        (WritesOn W.contents (value.now ∷ []) (held_records held) [] encoder.old encoder.new) }
{
    end_transaction(encoder, held)?;
    put_outside(encoder, value)
}

/// A transaction that the record begins.
fn begin(alloc: Global, value: RecordRef<'_>) -> Result<Transaction, WriteFault>
    ensures { IfOk result (λ transaction. transaction ≡ value.entry ∷ []) }
{
    match Transaction::new(alloc, value) {
        Ok(transaction) => Ok(transaction),
        Err(PushFault::Misplaced) => Err(WriteFault::Misplaced),
        Err(PushFault::Memory) => Err(WriteFault::Memory),
    }
}

/// Writes the transaction that is held, and begins one with the record.
fn end_and_begin<W: Target>(
    alloc: Global,
    encoder: &mut Encoder<W>,
    held: &Transaction,
    value: &Record,
) -> Result<Transaction, WriteFault>
    ensures { IfOk result
        (λ left. WritesOn W.contents (value.now ∷ []) held.now left encoder.old encoder.new) }
{
    put_whole(encoder, held)?;
    begin(alloc, value.view())
}

/// Adds a record to the transaction that is held, or writes that and begins one with the record.
fn continue_with<W: Target>(
    alloc: Global,
    encoder: &mut Encoder<W>,
    held: Transaction,
    value: &Record,
) -> Result<Transaction, WriteFault>
    ensures { IfOk result
        (λ left. WritesOn W.contents (value.now ∷ []) held left encoder.old encoder.new) }
{
    let mut transaction = held;
    match transaction.push(value.view()) {
        Ok(()) => Ok(transaction),
        Err(PushFault::Memory) => Err(WriteFault::Memory),
        Err(PushFault::Misplaced) => end_and_begin(alloc, encoder, &transaction, value),
    }
}

/// Adds a record inside transactions to the one that is held, or begins one with it.
fn add_inside<W: Target>(
    alloc: Global,
    encoder: &mut Encoder<W>,
    held: Option<Transaction>,
    value: &Record,
) -> Result<Transaction, WriteFault>
    ensures { IfOk result (λ left. WritesOn W.contents (value.now ∷ []) (held_records held) left
        encoder.old encoder.new) }
{
    match held {
        Some(transaction) => continue_with(alloc, encoder, transaction, value),
        None => begin(alloc, value.view()),
    }
}

/// Writes what a record ends, and the record where it stands outside transactions. The answer is the transaction that is held after
/// it.
fn add_record<W: Target>(
    alloc: Global,
    encoder: &mut Encoder<W>,
    held: Option<Transaction>,
    value: &Record,
) -> Result<Option<Transaction>, WriteFault>
    ensures { IfOk result (λ left. WritesOn W.contents (value.now ∷ []) (held_records held)
        (held_records left) encoder.old encoder.new) }
{
    match value.view().kind() {
        Kind::Hdr | Kind::Grh | Kind::Grt => match end_and_put(encoder, held, value) {
            Ok(()) => Ok(None),
            Err(fault) => Err(fault),
        },
        _ => match add_inside(alloc, encoder, held, value) {
            Ok(transaction) => Ok(Some(transaction)),
            Err(fault) => Err(fault),
        },
    }
}

/// What a line leaves.
#[derive(Drop)]
enum After {
    /// Lines may follow. The transaction that is held then, if there is one.
    Lines(Option<Transaction>),
    /// It was TRL's: no line after it is read.
    Trailer,
}

/// The record of a line, where it carries one.
fn record_of(line: &CutLine<'_>) -> Result<Record, WriteFault>
    ensures { IfOk result (HoldsRecord line.now) }
{
    if line.excess() {
        return Err(WriteFault::NotARecord);
    }
    match line.record() {
        Some(value) => Ok(value.to_record()),
        None => Err(WriteFault::NotARecord),
    }
}

/// Puts the record of a line.
fn put_record_of<W: Target>(
    alloc: Global,
    encoder: &mut Encoder<W>,
    held: Option<Transaction>,
    line: &CutLine<'_>,
) -> Result<After, WriteFault>
    ensures { IfOk result
        (λ after. WritesLine W.contents line.now (held_records held) after encoder.old encoder.new) }
{
    let value = match record_of(line) {
        Ok(value) => value,
        Err(fault) => return Err(fault),
    };
    match add_record(alloc, encoder, held, &value) {
        Ok(left) => Ok(After::Lines(left)),
        Err(fault) => Err(fault),
    }
}

/// Ends before the line of TRL: the transaction that is held is written.
fn end_at_trailer<W: Target>(
    encoder: &mut Encoder<W>,
    held: Option<Transaction>,
    line: &CutLine<'_>,
) -> Result<After, WriteFault>
    requires { held_kind line.now ≡ Some Kind.Trl }
    ensures { IfOk result
        (λ after. WritesLine W.contents line.now (held_records held) after encoder.old encoder.new) }
{
    if line.excess() {
        return Err(WriteFault::NotARecord);
    }
    match end_transaction(encoder, held) {
        Ok(()) => Ok(After::Trailer),
        Err(fault) => Err(fault),
    }
}

/// Puts the record of a line, or ends before that of TRL.
fn put_line<W: Target>(
    alloc: Global,
    encoder: &mut Encoder<W>,
    held: Option<Transaction>,
    line: &LineBuf,
) -> Result<After, WriteFault>
    requires { line.now.ended ≢ Open }
    ensures { IfOk result
        (λ after. WritesLine W.contents line.now (held_records held) after encoder.old encoder.new) }
{
    let cut = line.cut();
    match cut.kind() {
        Some(Kind::Trl) => end_at_trailer(encoder, held, &cut),
        _ => put_record_of(alloc, encoder, held, &cut),
    }
}

/// Where writing stopped, and why.
#[derive(Clone, Copy, Debug)]
struct Stop {
    line: u64,
    fault: WriteFault,
}

/// A stop at a line: or, where the transaction before it isn't taken, at that one's first line, since each of its lines has a record.
fn stop_at(line: u64, fault: WriteFault) -> Stop {
    match fault {
        WriteFault::Held(_, records) => Stop {
            line: line.saturating_sub(records),
            fault,
        },
        _ => Stop { line, fault },
    }
}

/// Puts the records that the lines of the text carry, up to TRL or the text's end, and the transaction that is then held.
fn put_lines<W: Target>(alloc: Global, encoder: &mut Encoder<W>, text: &[u8]) -> Result<(), Stop>
    ensures { OnOk result (WritesLines W.contents text.now encoder.old encoder.new) }
{
    let mut held: Option<Transaction> = None;
    let mut line = LineBuf::new();
    let mut used = 0;
    let mut number: u64 = 0;
    'lines: while let Some(taken) = first_line(&mut line, &text[used..]) {
        number = number.saturating_add(1);
        match put_line(alloc, encoder, held, &line) {
            Ok(After::Lines(left)) => held = left,
            Ok(After::Trailer) => return Ok(()),
            Err(fault) => return Err(stop_at(number, fault)),
        }
        used += taken;
        line.clear();
    }
    match end_transaction(encoder, held) {
        Ok(()) => Ok(()),
        Err(fault) => Err(stop_at(number.saturating_add(1), fault)),
    }
}

/// How writing ended.
#[repr(C)]
#[derive(Clone, Copy, Debug, PartialEq, Eq)]
pub struct CwrWritten {
    /// 0 written, 1 a line carries no record, 2 out of order, 3 of the wrong kind, 4 incomplete, 5 a limit, 6 no memory, 7 a limit
    /// out of its range, 8 a line of JSON isn't taken, 9 the lines of JSON end before TRL's.
    pub ending: u32,
    /// Of a limit: 1 records, 2 groups, 3 transaction.
    pub detail: u32,
    /// The number of the line that isn't taken, from 1: of a transaction its first; 0 where it came after all lines.
    pub line: u64,
}

/// How writing ended.
pub(crate) fn written(ending: u32, line: u64, detail: u32) -> CwrWritten
    ensures { result ≡ record { ending = ending; detail = detail; line = line } }
{
    CwrWritten {
        ending,
        detail,
        line,
    }
}

/// A fault of an encoder in numbers.
fn fault_in_c(fault: EncodeFault, line: u64) -> CwrWritten
    ensures { result.ending ≢ 0 }
{
    match fault {
        EncodeFault::OutOfOrder => written(2, line, 0),
        EncodeFault::WrongKind => written(3, line, 0),
        EncodeFault::Incomplete => written(4, line, 0),
        EncodeFault::Limit(limit) => written(5, line, limit_number(limit)),
        EncodeFault::Writer { .. } => written(6, line, 0),
    }
}

/// A stop in numbers.
fn stop_in_c(stop: Stop) -> CwrWritten
    ensures { result.ending ≢ 0 }
{
    match stop.fault {
        WriteFault::NotARecord => written(1, stop.line, 0),
        WriteFault::Misplaced => written(2, stop.line, 0),
        WriteFault::Memory => written(6, stop.line, 0),
        WriteFault::Encode(fault) | WriteFault::Held(fault, _) => fault_in_c(fault, stop.line),
    }
}

/// Writes TRL, and gives the writer back.
fn finish<W: Target + Drop>(encoder: Encoder<W>) -> Result<W, WriteFault>
    ensures { IfOk result (λ writer. EndsWriting W.contents encoder writer) }
{
    match encoder.finish() {
        (writer, Ok(_)) => Ok(writer),
        (_, Err(fault)) => Err(WriteFault::Encode(fault)),
    }
}

/// Writes the transmission whose records the lines carry, and gives the writer back.
fn write_lines<W: Target + Drop>(
    alloc: Global,
    limits: Limits,
    text: &[u8],
    writer: W,
) -> Result<W, Stop>
    ensures { IfOk result (λ made. (records : List RecordValue) × CarryRecords text.now records
        × HasCanonical W.contents (W.contents writer) limits records made) }
{
    let mut encoder = Encoder::new(writer, limits);
    put_lines(alloc, &mut encoder, text)?;
    match finish(encoder) {
        Ok(writer) => Ok(writer),
        Err(fault) => Err(Stop { line: 0, fault }),
    }
}

/// The canonical text of the transmission whose records the lines carry.
pub(crate) fn write_text(alloc: Global, limits: Limits, text: &[u8]) -> Result<Vec<u8>, CwrWritten>
    ensures ok { IfOk result (λ made. IsCanonicalOf limits text.now made.items) }
    ensures err { IfErr result (λ told. told.ending ≢ 0) }
{
    match write_lines(alloc, limits, text, Counted::new(Vec::new(alloc))) {
        Ok(writer) => Ok(writer.into_inner()),
        Err(stop) => Err(stop_in_c(stop)),
    }
}
