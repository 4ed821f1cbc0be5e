//! Reading a transmission from a reader, item by item.

ghost use Rattle.std.specs.Prelude.{◌≡◌, ◌≤◌, ℕ, List, [], ◌++◌, Option, Err, IfNone, IfSome, IsSome, IsSomeAnd, None, Some, true, false};
ghost use Rattle.cwr_decode.specs.Steps.Decoding.{HasWaiting, accepted_records, final_answer, has_ended, limits_of};
ghost use Rattle.cwr_decode.specs.Steps.Represents.{RepresentsSome, Represents};
ghost use Rattle.cwr_decode.specs.Steps.Machines.{WaitsOutside, again};
ghost use Rattle.cwr_decode.specs.Steps.Passing.{CountsPassing, PassesOrFails, ReadsPassing, StaysOrPasses};
ghost use Rattle.cwr_decode.specs.Steps.Readings.{answer_of, CountsQuickly, CountsReader, FeedsOn, FindsNoMemory, Reads, ReadsAgain, ReadsQuickly};
ghost use Rattle.cwr_decode.specs.Steps.LastReads.{AreHeld, HoldsLast, IsFrontOf, ReadsLast};

use crate::decoders::Decoder;
use crate::keepers::Keeper;
use crate::last_bytes::LastBytes;
use crate::machine::{Passed, State};
use crate::outcomes::Outcome;
use cwr_devices::Source;
use cwr_judge::Refusal;
use cwr_lines::Record;
use cwr_shape::{Counts, Limits, Stage};
use cwr_values::{Item, Transaction};
use std::alloc::Global;
use std::error::Error;
use std::fmt::{self, Display, Formatter, Write};

/// Why no item was read.
#[derive(Clone, Copy, Debug, PartialEq, Eq)]
pub enum ReadFault {
    /// The reader failed. What it gave before stays read, and the next call reads on.
    Reader,
    /// No transmission within the limits continues so.
    Refused(Refusal),
    /// The input has ended, and no transmission is whole.
    Truncated {
        /// How many lines the input has.
        records: u32,
    },
    /// Memory for an accepted record was refused.
    Memory,
}

impl Display for ReadFault {
    fn fmt<O: Write>(&self, f: &mut Formatter<O>) -> fmt::Result {
        match self {
            ReadFault::Reader => f.pad("reader failed"),
            ReadFault::Refused(refusal) => write!(f, "refused: {refusal}"),
            ReadFault::Truncated { records } => write!(f, "truncated after {records} records"),
            ReadFault::Memory => f.pad("out of memory"),
        }
    }
}

impl Error for ReadFault {}

/// What was read last, how far that came, and what transaction is open.
#[derive(Drop)]
pub struct LastRead {
    /// How far the accepted records have come.
    pub stage: Stage,
    /// What was counted of them.
    pub counts: Counts,
    /// The header of their open transaction, where one is open.
    pub header: Option<Record>,
    /// The last bytes that the reader lost.
    pub bytes: LastBytes,
}

/// The items of a transmission, which are read one at a time from a lent reader.
pub struct Reading<'a, R: Source, D: Drop = Decoder, L: Drop = Option<LastBytes>> {
    reader: &'a mut R,
    decoder: D,
    /// The last bytes that were read, where they are held.
    last: L,
}

impl<R: Source, D: Drop, L: Drop> Drop for Reading<'_, R, D, L> {
    fn drop(self)
        ensures { self.exit.0.now ≡ self.entry.reader.now }
    {
        let Reading {
            reader: _,
            decoder: _,
            last: _,
        } = self;
    }
}

/// What the decoder's answer is reported as. `None` where it needs more of the input.
fn answer(outcome: Outcome) -> Option<Result<Option<Item>, ReadFault>>
    ensures { result ≡ answer_of outcome }
{
    match outcome {
        Outcome::More => None,
        Outcome::Item(item) => Some(Ok(Some(item))),
        Outcome::Refused(refusal) => Some(Err(ReadFault::Refused(refusal))),
        Outcome::Truncated { records } => Some(Err(ReadFault::Truncated { records })),
        Outcome::Memory => Some(Err(ReadFault::Memory)),
        Outcome::Done => Some(Ok(None)),
    }
}

/// What is read of what the reader shows next by quick tests.
#[derive(Drop)]
enum Quick {
    /// A transaction.
    Whole(Transaction),
    /// The reader failed.
    Failed,
    /// No item: the rest is left to `pull`.
    Nothing,
}

/// Takes bytes that were read after those before, where the last ones are held.
#[inline(always)]
fn keep_last(last: &mut Option<LastBytes>, bytes: &[u8])
    ensures { (read : List ℕ) → AreHeld read last.old → AreHeld (read ++ bytes.now) last.new }
{
    if let Some(last) = last {
        last.keep(bytes);
    }
}

/// Feeds what the reader shows next by quick tests, up to the next transaction. What these leave is consumed later.
fn pull_quickly<R: Source>(
    decoder: &mut Decoder,
    last: &mut Option<LastBytes>,
    reader: &mut R,
) -> Quick
    requires reading { decoder.old.state ≡ State.Reading }
    requires fresh { decoder.old.finished ≡ false }
    ensures reads { ReadsQuickly result decoder.old (R.remaining reader.old) decoder.new
        (R.remaining reader.new) }
    ensures failures { CountsQuickly result (R.failures reader.old) (R.failures reader.new) }
    ensures last { ReadsLast (R.remaining reader.old) (R.remaining reader.new) last.old last.new }
{
    let piece = match reader.fill() {
        Ok(piece) => piece,
        Err(_) => return Quick::Failed,
    };
    let (used, found) = decoder.feed_quickly(piece);
    keep_last(last, &piece[..used]);
    reader.consume(used);
    match found {
        Some(whole) => Quick::Whole(whole),
        None => Quick::Nothing,
    }
}

/// Passes over whole transactions of what the reader shows next, once the header that waits is entered. `None` where the reader failed.
fn pass_shown<R: Source, K: Keeper>(
    decoder: &mut Decoder,
    last: &mut Option<LastBytes>,
    reader: &mut R,
    keeper: &mut K,
) -> Option<Passed>
    ensures passes { PassesOrFails K.are_clean decoder.old (R.remaining reader.old) result
        decoder.new (R.remaining reader.new) }
    ensures failures { CountsPassing result (R.failures reader.old) (R.failures reader.new) }
    ensures stays { StaysOrPasses decoder.old reader.old decoder.new reader.new }
    ensures last { ReadsLast (R.remaining reader.old) (R.remaining reader.new) last.old last.new }
{
    if !decoder.is_settled() {
        return Some(Passed::nothing());
    }
    let piece = match reader.fill() {
        Ok(piece) => piece,
        Err(_) => return None,
    };
    let passed = decoder.pass(keeper, piece);
    keep_last(last, &piece[..passed.used]);
    reader.consume(passed.used);
    Some(passed)
}

/// Feeds what the reader shows next, or the end of the input. `None` where more is needed.
fn pull<R: Source>(
    decoder: &mut Decoder,
    last: &mut Option<LastBytes>,
    reader: &mut R,
) -> Option<Result<Option<Item>, ReadFault>>
    requires reading { decoder.old.state ≡ State.Reading }
    requires fresh { decoder.old.finished ≡ false }
    ensures stood { IfNone result (RepresentsSome decoder.old) }
    ensures continues { IfNone result
        (FeedsOn 1 decoder.old (R.remaining reader.old) decoder.new (R.remaining reader.new)) }
    ensures reads { IfSome result (λ answer. Reads decoder.old (R.remaining reader.old) answer
        decoder.new (R.remaining reader.new)) }
    ensures same { IfNone result (R.failures reader.new ≡ R.failures reader.old) }
    ensures failures { IfSome result
        (λ answer. CountsReader answer (R.failures reader.old) (R.failures reader.new)) }
    ensures last { ReadsLast (R.remaining reader.old) (R.remaining reader.new) last.old last.new }
{
    let piece = match reader.fill() {
        Ok(piece) => piece,
        Err(_) => return Some(Err(ReadFault::Reader)),
    };
    if piece.is_empty() {
        return answer(decoder.finish().outcome);
    }
    let step = decoder.feed(piece);
    keep_last(last, &piece[..step.used]);
    reader.consume(step.used);
    answer(step.outcome)
}

/// Reads on, where the decoder needs more.
fn read_on<R: Source>(
    decoder: &mut Decoder,
    last: &mut Option<LastBytes>,
    reader: &mut R,
) -> Result<Option<Item>, ReadFault>
    requires reading { decoder.old.state ≡ State.Reading }
    requires fresh { decoder.old.finished ≡ false }
    ensures reads { Reads decoder.old (R.remaining reader.old) result decoder.new
        (R.remaining reader.new) }
    ensures failures { CountsReader result (R.failures reader.old) (R.failures reader.new) }
    ensures last { ReadsLast (R.remaining reader.old) (R.remaining reader.new) last.old last.new }
{
    let mut pieces: u64 = 0;
    loop {
        if let Some(reported) = pull(decoder, last, reader) {
            return reported;
        }
        pieces += 1;
    }
}

/// What the decoder answers to an empty piece. `None` where it needs a byte.
fn answer_now(decoder: &mut Decoder) -> Option<Result<Option<Item>, ReadFault>>
    ensures continues { IfNone result
        ((left : Option (List ℕ)) → FeedsOn 0 decoder.old left decoder.new left) }
    ensures reads { IfSome result
        (λ answer. (left : Option (List ℕ)) → Reads decoder.old left answer decoder.new left) }
    ensures failures { IfSome result
        (λ answer. (failures : ℕ) → CountsReader answer failures failures) }
    ensures again { IfSome (again decoder.old.state)
        (λ outcome. (result ≡ answer_of outcome) × (decoder.new ≡ decoder.old)) }
    ensures input_ended { decoder.old.finished ≡ true → IsSome result }
    ensures alone { WaitsOutside decoder.old → IsSome result }
{
    answer(decoder.feed(&[]).outcome)
}

/// What the decoder answers without a further byte. `None` where it needs one.
fn settle(decoder: &mut Decoder) -> Option<Result<Option<Item>, ReadFault>>
    ensures continues { IfNone result
        ((left : Option (List ℕ)) → FeedsOn 0 decoder.old left decoder.new left) }
    ensures reads { IfSome result
        (λ answer. (left : Option (List ℕ)) → Reads decoder.old left answer decoder.new left) }
    ensures failures { IfSome result
        (λ answer. (failures : ℕ) → CountsReader answer failures failures) }
    ensures again { IfSome (again decoder.old.state)
        (λ outcome. (result ≡ answer_of outcome) × (decoder.new ≡ decoder.old)) }
    ensures input_ended { decoder.old.finished ≡ true → IsSome result }
    ensures alone { WaitsOutside decoder.old → IsSome result }
{
    if decoder.is_settled() {
        return None;
    }
    answer_now(decoder)
}

impl<'a, R: Source> Reading<'a, R> {
    /// A reading of which nothing was read.
    fn begin(
        alloc: Global,
        limits: Limits,
        reader: &'a mut R,
        last: Option<LastBytes>,
    ) -> Reading<'a, R>
        ensures same_reference { result.reader.ghost_name ≡ reader.entry.ghost_name }
        ensures kept { result.reader.now ≡ reader.old }
        ensures represents { Represents result.decoder [] [] }
        ensures limits { limits_of result.decoder ≡ limits }
        ensures open { final_answer result.decoder ≡ None }
        ensures fresh { has_ended result.decoder ≡ false }
        ensures last { result.last ≡ last }
    {
        Reading {
            reader,
            decoder: Decoder::new(alloc, limits),
            last,
        }
    }

    /// A reading of the transmission, within the limits, that the reader's next bytes are. Nothing is read yet.
    pub fn new(alloc: Global, limits: Limits, reader: &'a mut R) -> Reading<'a, R>
        ensures same_reference { result.reader.ghost_name ≡ reader.entry.ghost_name }
        ensures kept { result.reader.now ≡ reader.old }
        ensures represents { Represents result.decoder [] [] }
        ensures limits { limits_of result.decoder ≡ limits }
        ensures open { final_answer result.decoder ≡ None }
        ensures fresh { has_ended result.decoder ≡ false }
    {
        Reading::begin(alloc, limits, reader, None)
    }

    /// The same, where the last bytes that are read are held too, for `last_read`.
    pub fn holding_last(alloc: Global, limits: Limits, reader: &'a mut R) -> Reading<'a, R>
        ensures same_reference { result.reader.ghost_name ≡ reader.entry.ghost_name }
        ensures kept { result.reader.now ≡ reader.old }
        ensures represents { Represents result.decoder [] [] }
        ensures limits { limits_of result.decoder ≡ limits }
        ensures open { final_answer result.decoder ≡ None }
        ensures fresh { has_ended result.decoder ≡ false }
        ensures last { AreHeld [] result.last }
    {
        Reading::begin(alloc, limits, reader, Some(LastBytes::new()))
    }

    /// Reads the next item. `Ok(None)` after `Ended`, which is the last one. What the decoder can answer without a
    /// further byte is answered without reading; else just the bytes that the decoder uses are consumed.
    ///
    /// It answers `ReadFault::Reader` where the reader failed, and the next call reads on; the other faults are
    /// answered again by each later call.
    pub fn next_item(&mut self) -> Result<Option<Item>, ReadFault>
        ensures same_reference { self.new.reader.ghost_name ≡ self.old.reader.ghost_name }
        ensures reads { Reads self.old.decoder (R.remaining self.old.reader.now) result
            self.new.decoder (R.remaining self.new.reader.now) }
        ensures failures { CountsReader result (R.failures self.old.reader.now)
            (R.failures self.new.reader.now) }
        // Out of memory comes only with a record that was being added: where none was accepted in this call, it was the one
        // that waited, and the reader is as it was.
        ensures memory { FindsNoMemory self.old.decoder self.old.reader.now result self.new.decoder
            self.new.reader.now }
        // After the end or a fault of the input, that is answered again, and nothing changes.
        ensures again { ReadsAgain self.old.decoder self.old.reader.now result self.new.decoder
            self.new.reader.now }
        // Once the reader was at its end, it is read no more.
        ensures input_ended { has_ended self.old.decoder ≡ true
            → self.new.reader.now ≡ self.old.reader.now }
        // Nor is it where a record waits that is an item of its own.
        ensures alone { WaitsOutside self.old.decoder → self.new.reader.now ≡ self.old.reader.now }
        // Where the last bytes are held, those that the reader lost are.
        ensures last { ReadsLast (R.remaining self.old.reader.now) (R.remaining self.new.reader.now)
            self.old.last self.new.last }
    {
        if let Some(reported) = settle(&mut self.decoder) {
            return reported;
        }
        match pull_quickly(&mut self.decoder, &mut self.last, self.reader) {
            Quick::Whole(whole) => Ok(Some(Item::Transaction(whole))),
            Quick::Failed => Err(ReadFault::Reader),
            Quick::Nothing => read_on(&mut self.decoder, &mut self.last, self.reader),
        }
    }

    /// Reads the next item, as `next_item` does, where nobody needs the one before any more: the next transaction has its room, and
    /// asks for memory only where that isn't enough.
    pub fn next_item_after(&mut self, spent: Option<Item>) -> Result<Option<Item>, ReadFault>
        ensures same_reference { self.new.reader.ghost_name ≡ self.old.reader.ghost_name }
        ensures reads { Reads self.old.decoder (R.remaining self.old.reader.now) result
            self.new.decoder (R.remaining self.new.reader.now) }
        ensures failures { CountsReader result (R.failures self.old.reader.now)
            (R.failures self.new.reader.now) }
        ensures memory { FindsNoMemory self.old.decoder self.old.reader.now result self.new.decoder
            self.new.reader.now }
        ensures again { ReadsAgain self.old.decoder self.old.reader.now result self.new.decoder
            self.new.reader.now }
        ensures input_ended { has_ended self.old.decoder ≡ true
            → self.new.reader.now ≡ self.old.reader.now }
        ensures alone { WaitsOutside self.old.decoder → self.new.reader.now ≡ self.old.reader.now }
        ensures last { ReadsLast (R.remaining self.old.reader.now) (R.remaining self.new.reader.now)
            self.old.last self.new.last }
    {
        let _taken = self.decoder.reuse(spent);
        self.next_item()
    }

    /// Passes over whole transactions of what the reader shows next, where the keeper finds each surely as it should be, and reads the
    /// next item. It is as if `next_item` had answered the transactions that were passed over, but nothing is held of them. Beside the
    /// answer stands how many they were.
    pub fn next_item_passing<K: Keeper>(
        &mut self,
        keeper: &mut K,
    ) -> (Passed, Result<Option<Item>, ReadFault>)
        ensures same_reference { self.new.reader.ghost_name ≡ self.old.reader.ghost_name }
        ensures reads { ReadsPassing K.are_clean self.old.decoder (R.remaining self.old.reader.now)
            result.0 result.1 self.new.decoder (R.remaining self.new.reader.now) }
        ensures failures { CountsReader result.1 (R.failures self.old.reader.now)
            (R.failures self.new.reader.now) }
        // Out of memory comes only with a record that was being added, as in `next_item`: where none was accepted in this call, nothing was
        // passed over.
        ensures memory { FindsNoMemory self.old.decoder self.old.reader.now result.1 self.new.decoder
            self.new.reader.now }
        ensures again { ReadsAgain self.old.decoder self.old.reader.now result.1 self.new.decoder
            self.new.reader.now }
        ensures input_ended { has_ended self.old.decoder ≡ true
            → self.new.reader.now ≡ self.old.reader.now }
        ensures alone { WaitsOutside self.old.decoder → self.new.reader.now ≡ self.old.reader.now }
        ensures last { ReadsLast (R.remaining self.old.reader.now) (R.remaining self.new.reader.now)
            self.old.last self.new.last }
    {
        match pass_shown(&mut self.decoder, &mut self.last, self.reader, keeper) {
            Some(passed) => (passed, self.next_item()),
            None => (Passed::nothing(), Err(ReadFault::Reader)),
        }
    }

    /// What was read last, and how far the accepted records have come. After a refusal the bytes end with the refused line.
    /// `None` where the last bytes aren't held.
    pub fn last_read(&self) -> Option<LastRead>
        ensures front { IfSome result (λ last. IsFrontOf last self.now.decoder) }
        ensures bytes { (read : List ℕ) → AreHeld read self.now.last
            → IsSomeAnd result (λ last. HoldsLast read last.bytes) }
    {
        match &self.last {
            Some(last) => Some(LastRead {
                stage: self.decoder.stage(),
                counts: self.decoder.counts(),
                header: self.decoder.header(),
                bytes: last.copy(),
            }),
            None => None,
        }
    }
}
