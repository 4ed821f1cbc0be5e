//! Transmissions that are written call by call.

ghost use Rattle.std.specs.Prelude.{◌≡◌, ◌↔◌, ◌≤◌, IsTrue, ℕ, List, Option, [], ◌∷◌, length, map, true, false, IfErr, MatchOption, IfOk, OnOk, Err, Some};
ghost use Rattle.cwr_lines.specs.Format.Records.{RecordValue, row_of};
ghost use Rattle.cwr_shape.specs.declared.symbols.Symbol.{Symbol};
ghost use Rattle.cwr_shape.specs.Steps.Tallies.{IsTallyOf};
ghost use Rattle.cwr_values.specs.Format.Values.{symbol_of as symbol_by_cells};
ghost use Rattle.cwr_values.specs.Format.Rows.{canonical_line, trailer};
ghost use Rattle.cwr_devices.specs.Steps.Sinks.{Puts, writer_of, written_of};
ghost use Rattle.cwr_encode.specs.Steps.Texts.{text_from};
ghost use Rattle.cwr_encode.specs.Format.Encoders.{IsUnlimited, IsInGroup, JudgesTransaction, JudgesFoot, JudgesGroup, JudgesOpening, MayBeginGroup};
ghost use Rattle.cwr_encode.specs.Format.Encoders.{reached};
ghost use Rattle.cwr_encode.specs.Steps.Encoders.{OfTaken, Encodes, AddsRecords, AnswersAgain, IsNextNumber, TakesNoTransactions, TakesTransactions, end_fault, fault_of_bar, reached_at};
ghost use Rattle.cwr_encode.specs.Steps.Encoders.{is_stopped, encoder_limits, target_of, bytes_written};
ghost use Rattle.std.specs.Io.KnownBytes.{Keeps};
ghost use Rattle.cwr_devices.specs.Format.Failures.{one_more_failure};
ghost use Rattle.cwr_encode.specs.Format.EncodeFaultTexts.{encode_fault_text};
ghost use Rattle.cwr_encode.specs.Format.Finishing.{JudgesEnd};
ghost use Rattle.cwr_encode.specs.Steps.Finishing.{Finishes};

use crate::checks::{group_may_end, limit_passed};
use crate::rows::{put_row, put_transaction};
use cwr_devices::{Sink, Target};
use cwr_fields::{Kind, SpelledPair, TransactionType};
use cwr_lines::{CanonicalLine, Draft, Record, RecordRef};
use cwr_shape::{Bar, LimitKind, Limits, Stage, Symbol, Tally, TransactionStep};
use cwr_values::{Transaction, symbol_of};
use std::error::Error;
use std::fmt::{self, Display, Formatter, Write};

/// Why a call of an encoder failed: the first of these that holds. After a fault of the writer each call answers that.
#[derive(Clone, Copy, Debug, PartialEq, Eq)]
pub enum EncodeFault {
    /// The call isn't one that may come now.
    OutOfOrder,
    /// The record isn't of the call's kind, or the transaction isn't of the group's type.
    WrongKind,
    /// The transaction isn't whole, the group has no transaction, or the transmission has no group.
    Incomplete,
    /// No later calls could finish within the limit.
    Limit(LimitKind),
    /// The writer failed.
    Writer {
        /// How many bytes were written in all; at `u64::MAX`, at least so many.
        written: u64,
    },
}

impl Display for EncodeFault {
    ghost output = { λ fault. Some (encode_fault_text fault) };

    fn fmt<O: Write>(&self, f: &mut Formatter<O>) -> fmt::Result {
        match self {
            EncodeFault::OutOfOrder => f.pad("out of order"),
            EncodeFault::WrongKind => f.pad("of the wrong kind"),
            EncodeFault::Incomplete => f.pad("incomplete"),
            EncodeFault::Limit(limit) => write!(f, "limit {limit}"),
            EncodeFault::Writer { written } => write!(f, "the writer failed after {written} bytes"),
        }
    }
}

impl Error for EncodeFault {}

/// What came last.
#[derive(Clone, Copy, Debug, PartialEq, Eq)]
enum Reached {
    /// No record.
    Nothing,
    /// HDR.
    Opening,
    /// GRH.
    GroupHead,
    /// A record of a transaction.
    Inside,
    /// GRT.
    GroupFoot,
    /// TRL.
    End,
}

/// Writes a transmission call by call, with its sequence numbers, group IDs and counts: `open` with its HDR record,
/// for each group `group`, its transactions by `transaction`, and `end_group`, and at last `finish`.
///
/// ```
/// let mut encoder = Encoder::new(writer, limits);
/// encoder.open(&opening)?;
/// encoder.group(&head)?;
/// for transaction in &transactions {
///     encoder.transaction(transaction)?;
/// }
/// encoder.end_group(&foot)?;
/// let (writer, written) = encoder.finish();
/// ```
#[derive(Drop)]
pub struct Encoder<W: Target> {
    sink: Sink<W>,
    tally: Tally,
    line: CanonicalLine,
    /// The numbers of the line that was looked at last, with their digits.
    expected: SpelledPair,
}

impl<W: Target> Encoder<W> {
    /// An encoder that has written nothing yet. The transmission is to keep to the limits.
    pub fn new(writer: W, limits: Limits) -> Encoder<W>
        ensures represents { Encodes W.contents (W.contents writer) [] result }
        ensures limits { encoder_limits result ≡ limits }
        ensures unfailed { is_stopped result ≡ false }
        ensures writer { target_of result ≡ writer }
    {
        Encoder {
            sink: Sink::new(writer),
            tally: Tally::new(limits),
            line: CanonicalLine::new(),
            expected: SpelledPair::new(),
        }
    }

    /// Whether the writer failed.
    fn is_stopped(&self) -> bool
        ensures { result ≡ is_stopped self.now }
    {
        self.sink.has_failed()
    }

    /// The fault that each call answers after a fault of the writer.
    fn fault(&self) -> EncodeFault
        ensures { result ≡ EncodeFault.Writer (bytes_written self.now) }
    {
        EncodeFault::Writer {
            written: self.sink.written(),
        }
    }

    /// What came last.
    fn reached(&self) -> Reached
        ensures { (xs : List Symbol) → IsTallyOf self.now.tally xs → result ≡ reached xs }
    {
        reached_at(self.tally.stage())
    }

    /// Puts the record's line with these numbers.
    fn put(&mut self, shown: &RecordRef<'_>, numbers: &[u64]) -> Result<(), EncodeFault>
        requires { is_stopped self.old ≡ false }
        ensures puts { Puts W.contents W.failures (canonical_line (row_of numbers.now shown.now))
            result self.old.sink self.new.sink }
        ensures fault { IfErr result (λ e. e ≡ EncodeFault.Writer (bytes_written self.new)) }
        ensures tally { self.new.tally ≡ self.old.tally }
    {
        match put_row(&mut self.sink, &mut self.line, shown, numbers) {
            Ok(()) => Ok(()),
            Err(fault) => Err(EncodeFault::Writer {
                written: fault.written,
            }),
        }
    }

    /// Writes HDR. It comes first, once.
    pub fn open(&mut self, opening: &Record) -> Result<(), EncodeFault>
        ensures again { is_stopped self.old ≡ true → AnswersAgain result self.old self.new }
        ensures judged { OfTaken W.contents self.old (λ records. JudgesOpening (encoder_limits self.old) opening.now (map symbol_by_cells records) result) }
        ensures unlimited { IsUnlimited result }
        ensures adds { is_stopped self.old ≡ false
            → AddsRecords W.contents W.failures (opening.now ∷ []) result self.old self.new }
        ensures limits { encoder_limits self.new ≡ encoder_limits self.old }
    {
        if self.is_stopped() {
            return Err(self.fault());
        }
        if self.tally.admits(Symbol::Plain(Kind::Hdr)).is_err() {
            return Err(EncodeFault::OutOfOrder);
        }
        let shown = opening.view();
        if !is_of(&shown, Kind::Hdr) {
            return Err(EncodeFault::WrongKind);
        }
        self.tally.step(Symbol::Plain(Kind::Hdr));
        self.put(&shown, &[])
    }

    /// The number that belongs in field `j` of the next record, which is of the kind.
    fn number(&self, kind: Kind, j: u8) -> u64
        ensures { IsNextNumber self.now.tally kind j result }
    {
        self.tally.expects(kind, j).unwrap_or(0)
    }

    /// Writes the GRH of a new group. `Limit` is answered where no transmission within the limit has it here.
    pub fn group(&mut self, head: &Record) -> Result<(), EncodeFault>
        ensures again { is_stopped self.old ≡ true → AnswersAgain result self.old self.new }
        ensures judged { OfTaken W.contents self.old (λ records. JudgesGroup (encoder_limits self.old) head.now (map symbol_by_cells records) result) }
        ensures adds { is_stopped self.old ≡ false
            → AddsRecords W.contents W.failures (head.now ∷ []) result self.old self.new }
        ensures limits { encoder_limits self.new ≡ encoder_limits self.old }
    {
        if self.is_stopped() {
            return Err(self.fault());
        }
        if !may_begin_group(self.reached()) {
            return Err(EncodeFault::OutOfOrder);
        }
        let shown = head.view();
        if !is_of(&shown, Kind::Grh) {
            return Err(EncodeFault::WrongKind);
        }
        let symbol = symbol_of(&shown);
        match self.tally.admits(symbol) {
            Ok(()) => {
                let number = self.number(Kind::Grh, 3);
                self.tally.step(symbol);
                self.put(&shown, &[number])
            }
            Err(bar) => Err(fault_of_bar(bar)),
        }
    }

    /// The type of the open group. `None` where none is open, and where a transaction is open that isn't whole.
    fn open_type(&self) -> Option<TransactionType>
        ensures { MatchOption result
            ((xs : List Symbol) → IsTallyOf self.now.tally xs → TakesNoTransactions xs)
            (λ ty. (xs : List Symbol) → IsTallyOf self.now.tally xs → TakesTransactions ty xs) }
    {
        let stage = self.tally.stage();
        match stage {
            Stage::Within(ty, step) => match step {
                TransactionStep::InGroup => Some(ty),
                _ => { if group_may_end(stage) { Some(ty) } else { None } }
            },
            _ => None,
        }
    }

    /// Puts the text of a whole transaction, which has that number in its group.
    fn put_all(&mut self, transaction: &Transaction, number: u64) -> Result<(), EncodeFault>
        requires unfailed { is_stopped self.old ≡ false }
        requires few { length transaction.now ≤ 999999 }
        ensures puts { Puts W.contents W.failures (text_from number 0 transaction.now) result
            self.old.sink self.new.sink }
        ensures fault { IfErr result (λ e. e ≡ EncodeFault.Writer (bytes_written self.new)) }
        ensures tally { self.new.tally ≡ self.old.tally }
    {
        match put_transaction(
            &mut self.sink,
            &mut self.line,
            &mut self.expected,
            transaction,
            number,
        ) {
            Ok(()) => Ok(()),
            Err(fault) => Err(EncodeFault::Writer {
                written: fault.written,
            }),
        }
    }

    /// Writes a whole transaction of the open group's type. `Limit` is answered where no transmission within the
    /// limits has it here.
    pub fn transaction(&mut self, transaction: &Transaction) -> Result<(), EncodeFault>
        ensures again { is_stopped self.old ≡ true → AnswersAgain result self.old self.new }
        ensures judged { OfTaken W.contents self.old (λ records. JudgesTransaction (encoder_limits self.old) transaction.now (map symbol_by_cells records) result) }
        ensures adds { is_stopped self.old ≡ false
            → AddsRecords W.contents W.failures transaction.now result self.old self.new }
        ensures limits { encoder_limits self.new ≡ encoder_limits self.old }
    {
        if self.is_stopped() {
            return Err(self.fault());
        }
        let Some(ty) = self.open_type() else {
            return Err(EncodeFault::OutOfOrder);
        };
        if !transaction.is_of(ty) {
            return Err(EncodeFault::WrongKind);
        }
        if !transaction.complete() {
            return Err(EncodeFault::Incomplete);
        }
        if let Some(limit) = limit_passed(&self.tally, transaction.len()) {
            return Err(EncodeFault::Limit(limit));
        }
        let number = self.number(transaction.kind(), 2);
        let records = transaction.len() as u32;
        self.tally.step_over(ty, records, transaction.step());
        self.put_all(transaction, number)
    }

    /// Writes the GRT of the open group, which has a transaction.
    pub fn end_group(&mut self, foot: &Record) -> Result<(), EncodeFault>
        ensures again { is_stopped self.old ≡ true → AnswersAgain result self.old self.new }
        ensures judged { OfTaken W.contents self.old (λ records. JudgesFoot (encoder_limits self.old) foot.now (map symbol_by_cells records) result) }
        ensures unlimited { IsUnlimited result }
        ensures adds { is_stopped self.old ≡ false
            → AddsRecords W.contents W.failures (foot.now ∷ []) result self.old self.new }
        ensures limits { encoder_limits self.new ≡ encoder_limits self.old }
    {
        if self.is_stopped() {
            return Err(self.fault());
        }
        if !is_in_group(self.reached()) {
            return Err(EncodeFault::OutOfOrder);
        }
        let shown = foot.view();
        if !is_of(&shown, Kind::Grt) {
            return Err(EncodeFault::WrongKind);
        }
        if self.tally.admits(Symbol::Plain(Kind::Grt)).is_err() {
            return Err(EncodeFault::Incomplete);
        }
        let group = self.number(Kind::Grt, 2);
        let transactions = self.number(Kind::Grt, 3);
        let records = self.number(Kind::Grt, 4);
        self.tally.step(Symbol::Plain(Kind::Grt));
        self.put(&shown, &[group, transactions, records])
    }

    /// Writes TRL.
    fn end(&mut self) -> Result<(), EncodeFault>
        ensures again { is_stopped self.old ≡ true → AnswersAgain result self.old self.new }
        ensures judged { OfTaken W.contents self.old (λ records. JudgesEnd (encoder_limits self.old) (map symbol_by_cells records) result) }
        ensures unlimited { IsUnlimited result }
        ensures adds { is_stopped self.old ≡ false
            → AddsRecords W.contents W.failures (trailer ∷ []) result self.old self.new }
        ensures limits { encoder_limits self.new ≡ encoder_limits self.old }
    {
        if self.is_stopped() {
            return Err(self.fault());
        }
        if self.tally.admits(Symbol::Plain(Kind::Trl)).is_err() {
            return Err(end_fault(self.reached()));
        }
        let groups = self.number(Kind::Trl, 2);
        let transactions = self.number(Kind::Trl, 3);
        let records = self.number(Kind::Trl, 4);
        self.tally.step(Symbol::Plain(Kind::Trl));
        let last = trailer();
        self.put(&last.view(), &[groups, transactions, records])
    }

    /// Writes TRL, and has the writer hand on all that was written. Gives the writer back, and answers how many bytes
    /// were written in all: the length of the transmission's canonical text.
    pub fn finish(self) -> (W, Result<u64, EncodeFault>)
        ensures again { is_stopped self ≡ true → (result.0 ≡ target_of self)
            × (result.1 ≡ Err (EncodeFault.Writer (bytes_written self))) }
        ensures judged { OfTaken W.contents self (λ records. JudgesEnd (encoder_limits self) (map symbol_by_cells records) result.1) }
        ensures unlimited { IsUnlimited result.1 }
        ensures finishes { Finishes W.contents W.failures self result.0 result.1 }
        // All that was written was handed on.
        ensures handed_on { OnOk result.1 (W.handed_on result.0 ≡ true) }
    {
        let mut encoder = self;
        match encoder.end() {
            Ok(()) => flushed(encoder.sink),
            Err(fault) => (encoder.sink.into_inner(), Err(fault)),
        }
    }

    /// Gives the writer back, with what was written. Nothing more is written.
    pub fn abandon(self) -> W
        ensures { result ≡ target_of self }
    {
        self.sink.into_inner()
    }
}

/// Whether a group may begin.
fn may_begin_group(reached: Reached) -> bool
    ensures { IsTrue result ↔ MayBeginGroup reached }
{
    matches!(reached, Reached::Opening | Reached::GroupFoot)
}

/// Whether a group is open.
fn is_in_group(reached: Reached) -> bool
    ensures { IsTrue result ↔ IsInGroup reached }
{
    matches!(reached, Reached::GroupHead | Reached::Inside)
}

/// The fault that a bar is.
fn fault_of_bar(bar: Bar) -> EncodeFault
    ensures { result ≡ fault_of_bar bar }
{
    match bar {
        Bar::Misplaced => EncodeFault::OutOfOrder,
        Bar::Limit(limit) => EncodeFault::Limit(limit),
    }
}

/// Whether the record is of the kind.
fn is_of(shown: &RecordRef<'_>, kind: Kind) -> bool
    ensures { IsTrue result ↔ (shown.now.kind ≡ kind) }
{
    shown.kind() == kind
}

/// Why a transmission may not end: after HDR it has no group, and else the call is out of order.
fn end_fault(reached: Reached) -> EncodeFault
    ensures { result ≡ end_fault reached }
{
    match reached {
        Reached::Opening => EncodeFault::Incomplete,
        _ => EncodeFault::OutOfOrder,
    }
}

/// A TRL record.
pub(crate) fn trailer() -> Record
    ensures { result ≡ trailer }
{
    match Draft::blank(Kind::Trl).done() {
        Ok(last) => last,
        Err(_) => unreachable!(),
    }
}

/// The writer of a sink, once it handed on what was written, and how many bytes that are.
pub(crate) fn flushed<W: Target>(sink: Sink<W>) -> (W, Result<u64, EncodeFault>)
    ensures kept { Keeps (W.contents (writer_of sink)) (W.contents result.0) }
    ensures ok { IfOk result.1
        (λ n. (n ≡ written_of sink) × (W.failures result.0 ≡ W.failures (writer_of sink))) }
    ensures err { IfErr result.1 (λ e. (e ≡ EncodeFault.Writer (written_of sink))
        × (W.failures result.0 ≡ one_more_failure (W.failures (writer_of sink)))) }
    ensures handed_on { OnOk result.1 (W.handed_on result.0 ≡ true) }
{
    let written = sink.written();
    let mut writer = sink.into_inner();
    match writer.flush() {
        Ok(()) => (writer, Ok(written)),
        Err(_) => (writer, Err(EncodeFault::Writer { written })),
    }
}

/// What came last, at a stage.
fn reached_at(stage: Stage) -> Reached
    ensures { result ≡ reached_at stage }
{
    match stage {
        Stage::Start => Reached::Nothing,
        Stage::Opened => Reached::Opening,
        Stage::Within(_, TransactionStep::InGroup) => Reached::GroupHead,
        Stage::Within(..) => Reached::Inside,
        Stage::Closed => Reached::GroupFoot,
        Stage::Ended => Reached::End,
    }
}
