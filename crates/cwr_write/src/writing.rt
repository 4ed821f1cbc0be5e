//! From lines of JSON to a transmission.

ghost use Rattle.std.specs.Prelude.{◌≡◌, ◌≢◌, ◌<◌, ◌^◌, ◌-◌, IfErr, IfOk, IfSome, OnErr, OnOk, ℕ, List, [], length, map, Option, true, false};
ghost use Rattle.cwr_fields.specs.declared.kinds.Kind.TheVariants.{Trl};
ghost use Rattle.cwr_shape.specs.declared.symbols.Symbol.TheVariants.{Plain};
ghost use Rattle.cwr_shape.specs.Format.NextSymbols.{MayCome};
ghost use Rattle.cwr_values.specs.Format.Values.{FitsIn, IsTransmission, TransmissionValue, symbol_of};
ghost use Rattle.cwr_encode.specs.Steps.Encoders.{AddsRecords, Encodes, OfEncoded, encoder_limits, is_stopped, target_of};
ghost use Rattle.cwr_encode.specs.Steps.Finishing.{FinishesWriting};
ghost use Rattle.cwr_write.specs.Format.Imports.{CountsReaderFault, CountsWriterFault, SaysItem, WritesWhole, given_records};
ghost use Rattle.cwr_write.specs.Format.Faults.{IsOfLine, IsPlaceReason, IsReason, JudgesTrailer, reached_with};
ghost use Rattle.cwr_devices.specs.Steps.Pens.{Adds};
ghost use Rattle.cwr_devices.specs.Steps.Sinks.{PutsText};
ghost use Rattle.cwr_write.specs.Format.OutcomeTexts.{outcome_text, written_text};
ghost use Rattle.cwr_write.specs.Format.Endings.{EndsAtLine, LeavesAfter, WritesWhatIsSaid};
ghost use Rattle.cwr_write.specs.Steps.Taking.{EndsLines, EndsWith, FinishesLines, IsCutShort, IsFinishFault, IsNoWriter, IsRunFaultOf, IsUnreadFault, JudgesNext};
ghost use Rattle.cwr_write.specs.Steps.Taking.{NoReader, Stands, TakesLine, TakesLines};

use crate::input_lines::{ReadFault, is_blank, next_line};
use crate::items::{ItemFault, encode_fault, item_in, write_item};
use crate::refusals::{Refusal, Why, of_line};
use cwr_devices::{Pen, Sink, SinkFault, Source, Target};
use cwr_encode::{EncodeFault, Encoder};
use cwr_json::Encoding;
use cwr_shape::Limits;
use cwr_values::Item;
use json::{Scratch, Value};
use std::alloc::Global;

/// A transmission that was written.
#[derive(Clone, Copy, Debug, PartialEq, Eq)]
pub struct Written {
    /// How many bytes it has.
    pub bytes: u64,
    /// How many lines were read.
    pub lines: u64,
}

/// Why no transmission was written: what the lines are, or a device or memory.
#[derive(Clone, Debug, Drop)]
pub enum WriteFault {
    /// A line isn't taken.
    Refused(Refusal),
    /// The input ends before the line of TRL.
    Early {
        /// How many lines it has.
        lines: u64,
    },
    /// The reader failed.
    Reader,
    /// The writer failed.
    Writer {
        /// How many bytes were written.
        written: u64,
    },
    /// Memory was refused.
    Memory,
}

/// Adds the line on a transmission that was written.
fn written_text<W: Target>(written: &Written, pen: &mut Pen<'_, W>)
    ensures { Adds W.contents W.failures (written_text written.now) pen.old pen.new }
{
    pen.text(b"WRITTEN lines ");
    pen.number(written.lines);
    pen.text(b" bytes ");
    pen.number(written.bytes);
    pen.text(b"\n");
}

/// Adds the line on how a write ended, if there is one.
fn outcome_text<W: Target>(outcome: &Result<Written, WriteFault>, pen: &mut Pen<'_, W>)
    ensures { Adds W.contents W.failures (outcome_text outcome.now) pen.old pen.new }
{
    match outcome {
        Ok(written) => written_text(written, pen),
        Err(WriteFault::Refused(refusal)) => refusal.refused_text(pen),
        Err(WriteFault::Early { .. }) => {
            pen.text(b"REFUSED the input ends before the trailer\n");
        }
        Err(WriteFault::Reader | WriteFault::Writer { .. } | WriteFault::Memory) => {}
    }
}

/// Puts the line that says how a write ended: `WRITTEN` with its numbers, or what isn't taken and why. Where a device or memory
/// failed it puts nothing.
pub fn put_write_outcome<W: Target>(
    outcome: &Result<Written, WriteFault>,
    sink: &mut Sink<W>,
) -> Result<(), SinkFault>
    ensures puts { PutsText W.contents W.failures (outcome_text outcome.now) result sink.old sink.new }
{
    let mut pen = Pen::new(sink);
    outcome_text(outcome, &mut pen);
    pen.end()
}

/// How far the lines have come.
#[derive(Clone, Copy, Debug, PartialEq, Eq)]
enum Reached {
    /// No line, or one that isn't the last.
    Begun,
    /// HDR alone.
    Opening,
    /// GRT.
    GroupFoot,
    /// TRL.
    End,
}

/// How far the lines have come with the item.
fn reached_with(item: &Item) -> Reached
    ensures { result ≡ reached_with item.now }
{
    match item {
        Item::Opened(_) => Reached::Opening,
        Item::GroupOpened(_) | Item::Transaction(_) => Reached::Begun,
        Item::GroupClosed(_) => Reached::GroupFoot,
        Item::Ended => Reached::End,
    }
}

/// Judges the line of TRL, which comes after a group.
fn judge_end(reached: Reached) -> Result<(), EncodeFault>
    ensures unfailed { IsNoWriter result }
    ensures ok { OnOk result (reached ≡ Reached.GroupFoot) }
    ensures err { OnErr result (reached ≢ Reached.GroupFoot) }
    ensures judged { OnErr result (JudgesTrailer reached result) }
{
    match reached {
        Reached::GroupFoot => Ok(()),
        Reached::Opening => Err(EncodeFault::Incomplete),
        Reached::Begun | Reached::End => Err(EncodeFault::OutOfOrder),
    }
}

/// Takes an item: writes it, unless it is TRL or comes after that.
fn take_item<W: Target>(
    item: &Item,
    reached: Reached,
    encoder: &mut Encoder<W>,
) -> Result<(), EncodeFault>
    requires { is_stopped encoder.old ≡ false }
    ensures adds { AddsRecords W.contents W.failures (given_records item.now) result encoder.old
        encoder.new }
    ensures limits { encoder_limits encoder.new ≡ encoder_limits encoder.old }
    ensures more { OnOk result (reached ≢ Reached.End) }
    ensures judged { (start : Option (List ℕ)) (items : List Item) → Stands W.contents start items reached encoder.old
        → JudgesNext (encoder_limits encoder.old) items item.now result }
{
    match (item, reached) {
        (_, Reached::End) => Err(EncodeFault::OutOfOrder),
        (Item::Ended, _) => judge_end(reached),
        _ => write_item(item, encoder),
    }
}

/// Takes an item. The answer is how far the lines have come with it.
fn taken<W: Target>(
    item: &Item,
    reached: Reached,
    encoder: &mut Encoder<W>,
) -> Result<Reached, ItemFault>
    requires { is_stopped encoder.old ≡ false }
    ensures takes { TakesLine (λ i. i ≡ item.now)
        (λ limits items f. IsOfLine f × IsPlaceReason limits items item.now f.why) reached
        W.contents W.failures result encoder.old encoder.new }
    ensures limits { encoder_limits encoder.new ≡ encoder_limits encoder.old }
{
    match take_item(item, reached, encoder) {
        Ok(()) => Ok(reached_with(item)),
        Err(fault) => Err(encode_fault(fault, item)),
    }
}

/// Takes one line.
fn take_line<W: Target>(
    alloc: Global,
    encoding: Encoding,
    line: &[u8],
    scratch: &mut Scratch,
    reached: Reached,
    encoder: &mut Encoder<W>,
) -> Result<Reached, ItemFault>
    requires { is_stopped encoder.old ≡ false }
    ensures takes { TakesLine (SaysItem encoding line.now)
        (λ limits items f. (most : ℕ) → IsReason encoding limits most items line.now f) reached
        W.contents W.failures result encoder.old encoder.new }
    ensures limits { encoder_limits encoder.new ≡ encoder_limits encoder.old }
{
    let value = match Value::from_slice(alloc, line, scratch) {
        Ok(value) => value,
        Err(json::Error::OutOfMemory) => return Err(ItemFault::Memory),
        Err(_) => return Err(ItemFault::Line(of_line(Why::NotJson))),
    };
    match item_in(alloc, encoding, &value) {
        Ok(item) => taken(&item, reached, encoder),
        Err(fault) => Err(fault),
    }
}

/// The fault of a run at that line.
fn fault_at(line: u64, fault: ItemFault) -> WriteFault
    ensures { IsRunFaultOf line fault result }
{
    match fault {
        ItemFault::Line(fault) => WriteFault::Refused(Refusal { line, fault }),
        ItemFault::Memory => WriteFault::Memory,
        ItemFault::Writer { written } => WriteFault::Writer { written },
    }
}

/// The fault of a run that can't read that line.
fn unread_at(line: u64, fault: ReadFault) -> WriteFault
    ensures { IsUnreadFault line fault result }
{
    match fault {
        ReadFault::Reader => WriteFault::Reader,
        ReadFault::Memory => WriteFault::Memory,
        ReadFault::TooLong => WriteFault::Refused(Refusal {
            line,
            fault: of_line(Why::TooLong),
        }),
    }
}

/// How so many lines end: well where the last item is TRL.
fn ended_with(lines: u64, reached: Reached) -> Result<u64, WriteFault>
    ensures { EndsWith lines reached result }
{
    match reached {
        Reached::End => Ok(lines),
        Reached::Begun | Reached::Opening | Reached::GroupFoot => Err(WriteFault::Early { lines }),
    }
}

/// Takes all lines, up to TRL's and what follows that. The answer is how many there are.
fn take_lines<R: Source, W: Target>(
    alloc: Global,
    encoding: Encoding,
    most: usize,
    reader: &mut R,
    encoder: &mut Encoder<W>,
) -> Result<u64, WriteFault>
    requires unfailed { is_stopped encoder.old ≡ false }
    requires fresh { Encodes W.contents (W.contents (target_of encoder.old)) [] encoder.old }
    ensures takes { TakesLines encoding (R.remaining reader.old) W.contents W.failures result
        encoder.old encoder.new }
    ensures reads { CountsReaderFault result (R.failures reader.old) (R.failures reader.new) }
    ensures limits { encoder_limits encoder.new ≡ encoder_limits encoder.old }
    ensures ends { IfSome (R.remaining reader.old) (λ text. length text < 2 ^ 64 - 1
        → EndsLines encoding (encoder_limits encoder.old) most text result) }
    ensures leaves { IfErr result (LeavesAfter encoding (encoder_limits encoder.old)
        (R.remaining reader.old) W.contents (target_of encoder.old) (target_of encoder.new)) }
{
    let mut line: Vec<u8> = Vec::new(alloc);
    let mut scratch: Scratch = Scratch::new(alloc);
    let mut reached = Reached::Begun;
    for before in 0..u64::MAX {
        let number = before + 1;
        match next_line(reader, &mut line, most) {
            Ok(true) => {}
            Ok(false) => return ended_with(before, reached),
            Err(fault) => return Err(unread_at(number, fault)),
        }
        let text = line.as_slice();
        if is_blank(text) {
            continue;
        }
        match take_line(alloc, encoding, text, &mut scratch, reached, encoder) {
            Ok(next) => reached = next,
            Err(fault) => return Err(fault_at(number, fault)),
        }
    }
    Err(WriteFault::Early { lines: u64::MAX })
}

/// Reads lines of JSON, each the data of an item with its cells shown by the encoding, and writes the transmission that they are. A
/// line may have `most` bytes. The writer comes back.
///
/// Where a line isn't taken, `WriteFault::Refused` says which, and why; the items of the lines before were written, and no TRL.
/// It holds one line and one item, whatever the input.
pub fn write<R: Source, W: Target>(
    alloc: Global,
    limits: Limits,
    encoding: Encoding,
    most: usize,
    reader: &mut R,
    writer: W,
) -> (W, Result<Written, WriteFault>)
    ensures written { IfOk result.1 (λ w. WritesWhole encoding limits (R.remaining reader.old)
        W.contents writer result.0 w.bytes) }
    ensures failures { CountsWriterFault result.1 (W.failures writer) (W.failures result.0) }
    ensures reads { CountsReaderFault result.1 (R.failures reader.old) (R.failures reader.new) }
    // Of a text of fewer than 2^64 - 1 bytes: all lines are taken, or the first up to which no transmission continues is told.
    ensures ends { IfSome (R.remaining reader.old)
        (λ text. length text < 2 ^ 64 - 1 → EndsAtLine encoding limits most text result.1) }
    // Nothing else is refused: lines that are data of a transmission within the limits are taken, and it is written.
    ensures takes { IfSome (R.remaining reader.old) (λ text. WritesWhatIsSaid limits encoding most text
        W.contents writer result.0 result.1) }
    // Where no transmission is written, the items of the lines before are, and no TRL; or their first bytes, so many as are told.
    ensures leaves { IfErr result.1 (LeavesAfter encoding limits (R.remaining reader.old)
        W.contents writer result.0) }
    // All that was written was handed on.
    ensures handed_on { OnOk result.1 (W.handed_on result.0 ≡ true) }
{
    let mut encoder = Encoder::new(writer, limits);
    match take_lines(alloc, encoding, most, reader, &mut encoder) {
        Ok(lines) => finish(encoder, lines),
        Err(fault) => (encoder.abandon(), Err(fault)),
    }
}

/// Ends a transmission of so many lines.
fn finish<W: Target>(encoder: Encoder<W>, lines: u64) -> (W, Result<Written, WriteFault>)
    requires { is_stopped encoder ≡ false }
    ensures written { IfOk result.1
        (λ w. FinishesWriting W.contents W.failures encoder result.0 (Ok w.bytes)) }
    ensures failures { CountsWriterFault result.1 (W.failures (target_of encoder))
        (W.failures result.0) }
    ensures cut { IsCutShort W.contents W.failures encoder result.0 result.1 }
    ensures unread { NoReader result.1 }
    ensures ended { OfEncoded W.contents encoder (λ records.
        MayCome (encoder_limits encoder) (map symbol_of records) (Plain Trl)
        → FinishesLines lines result.1) }
    ensures handed_on { OnOk result.1 (W.handed_on result.0 ≡ true) }
{
    let (writer, answer) = encoder.finish();
    match answer {
        Ok(bytes) => (writer, Ok(Written { bytes, lines })),
        Err(fault) => (writer, Err(finish_fault(lines, fault))),
    }
}

/// The fault of a transmission of so many lines that doesn't end.
fn finish_fault(lines: u64, fault: EncodeFault) -> WriteFault
    ensures { IsFinishFault lines fault result }
{
    match fault {
        EncodeFault::Writer { written } => WriteFault::Writer { written },
        _ => WriteFault::Early { lines },
    }
}
