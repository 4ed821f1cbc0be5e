//! A transmission that is read, summed up and, where that is asked for, encoded to a digest.

ghost use Rattle.std.specs.Prelude.{◌≡◌, ◌≢◌, ◌-◌, ◌^◌, ◌+◌, ◌≤◌, ◌∷◌, ◌++◌, min, ℕ, List, [], None, length, option_map, IfOk, IfSome, OnOk};
ghost use Rattle.std.specs.Io.KnownBytes.{IsAtEnd};
ghost use Rattle.cwr_values.specs.declared.items.Item.{Item};
ghost use Rattle.cwr_tools.specs.Format.Reports.{ItemLines};
ghost use Rattle.cwr_endings.specs.Format.Endings.{IsStatusBy};
ghost use Rattle.cwr_reports.specs.Format.Endings.{Counts};
ghost use Rattle.cwr_reports.specs.Steps.Looks.{IsJudged};
ghost use Rattle.cwr_reports.specs.Steps.Tellings.{CountsInput};
ghost use Rattle.cwr_answers.specs.Format.Endings.{wanted_of};
ghost use Rattle.cwr_summary.specs.Format.Summaries.{IsSummaryOf};
ghost use Rattle.cwr_summaries.specs.Format.Summed.{lines_of_summing};
ghost use Rattle.cwr_summaries.specs.Format.Rows.{opening_in};
ghost use Rattle.cwr_summaries.specs.Steps.Pieces.{CountsFault, CountsRest, IsPiece};
ghost use Rattle.cwr_summaries.specs.Steps.Digesting.{HasEncoded, IsDigestOf, IsDigesting};
ghost use Rattle.cwr_summaries.specs.Steps.Rows.{Judges, first_of};
ghost use Rattle.cwr_values.specs.declared.items.Item.TheVariants as items;
ghost use Rattle.cwr_causes.specs.Format.Trailing.{CountsRead};
ghost use Rattle.cwr_judge.specs.Format.Items.{item_records};
ghost use Rattle.cwr_tools.specs.Steps.Counts.{HasRoomToCount, IsCount};

use crate::summaries::Summing;
use cwr_advice::{RULE_COUNT, rule_at};
use cwr_advise::{AdviceCounts, AdviceLines};
use cwr_devices::{Counted, DeviceFault, Pen, Sink, Source, Target};
use cwr_digests::DigestedText;
use cwr_encode::Encoder;
use cwr_endings::{Judgement, Look, Wanted, judgement_of, look_after};
use cwr_fields::Kind;
use cwr_findings::is_of;
use cwr_lines::Record;
use cwr_shape::Level;
use cwr_summary::Summary;
use cwr_tools::{NothingKept, Report, ToolFault, Totals, Verdict, write_report};
use cwr_values::Item;
use std::alloc::{AllocError, Global};
use std::io;

/// Nothing is written of a transmission, but its items are summed up.
#[derive(Drop)]
pub struct SummedFile {
    /// The sums of the items so far.
    summary: Summary,
    /// Its HDR.
    header: Option<Record>,
    /// What its items are encoded with, where a digest is asked for.
    encoder: Option<Encoder<DigestedText>>,
    /// The digest of its canonical text, once it was read to its end.
    digest: Option<[u8; 32]>,
    /// The advice on its items, where that is counted.
    advice: Option<AdviceLines>,
}

/// How many pieces of advice have the level. The number stays at `u64::MAX`.
fn pieces_of(counts: &AdviceCounts, level: Level) -> u64 {
    let mut pieces: u64 = 0;
    for place in 0..RULE_COUNT {
        if let Some(rule) = rule_at(place) {
            if rule.level() == level {
                pieces = pieces.saturating_add(counts.of(rule));
            }
        }
    }
    pieces
}

impl SummedFile {
    /// Before the first item.
    pub fn new(summing: &Summing<'_, '_>) -> SummedFile
        ensures stands { ⟦<SummedFile as Report>⟧.stands result lines_of_summing [] }
    {
        SummedFile {
            summary: Summary::new(),
            header: None,
            encoder: if summing.digests {
                Some(Encoder::new(DigestedText::new(), summing.limits))
            } else {
                None
            },
            digest: None,
            advice: if summing.advised {
                Some(AdviceLines::new(summing.alloc, false, 0))
            } else {
                None
            },
        }
    }

    /// The sums.
    pub fn summary(&self) -> Summary
        ensures value { result ≡ self.now.summary }
        ensures sums { (of : ItemLines) (given : List Item)
            → ⟦<SummedFile as Report>⟧.stands self.now of given → IsSummaryOf given result.numbers }
    {
        self.summary
    }

    /// Its HDR.
    pub fn header(&self) -> Option<&Record>
        ensures { option_map (λ r. r.now) result ≡ self.now.header }
    {
        self.header.as_ref()
    }

    /// The digest of its canonical text, where that was asked for and it was read to its end.
    pub fn digest(&self) -> Option<[u8; 32]>
        ensures { result ≡ self.now.digest }
    {
        self.digest
    }

    /// How many pieces of advice have level T, R and F, where that is counted.
    pub fn advice(&self) -> Option<(u64, u64, u64)> {
        let counts = self.advice.as_ref()?.counts();
        Some((
            pieces_of(&counts, Level::T),
            pieces_of(&counts, Level::R),
            pieces_of(&counts, Level::F),
        ))
    }

    /// Keeps HDR, if the item is that.
    fn note_header(&mut self, item: &Item)
        ensures header { self.new.header ≡ first_of self.old.header (opening_in (item.now ∷ [])) }
        ensures others { self.new ≡ record (self.old) { header = self.new.header } }
    {
        match &self.header {
            Some(_) => {}
            None => self.header = opened(item),
        }
    }

    /// Counts the advice on an item.
    fn advise(&mut self, alloc: Global, counts: &Totals, item: &Item) -> Result<(), AllocError>
        requires room { HasRoomToCount counts.now }
        requires few { counts.now.records + length (item_records item.now) ≤ 99999999 }
        requires stands { IfSome self.old.advice (λ advice. (lines : ItemLines) × (given : List Item) × IsCount counts.now given
            × ⟦<AdviceLines as Report>⟧.stands advice lines given) }
        ensures others { self.new ≡ record (self.old) { advice = self.new.advice } }
        ensures stands { (given : List Item) → IsCount counts.now given
            → IfSome self.old.advice (λ advice. (lines : ItemLines) × ⟦<AdviceLines as Report>⟧.stands advice lines given)
            → OnOk result (IfSome self.new.advice (λ advice. (lines : ItemLines) × ⟦<AdviceLines as Report>⟧.stands advice lines (given ++ item.now ∷ []))) }
    {
        let Some(advice) = &mut self.advice else {
            return Ok(());
        };
        let mut sink = Sink::new(Counted::new(io::sink()));
        let mut pen = Pen::new(&mut sink);
        advice.item_lines(alloc, counts, item, &mut pen)
    }

    /// Encodes an item, where a digest is asked for. Once the transmission has ended that is its digest.
    fn encode(&mut self, item: &Item)
        ensures digesting { (given : List Item) → IsDigesting self.old.encoder self.old.digest given
            → IsDigesting self.new.encoder self.new.digest (given ++ item.now ∷ []) }
        ensures others { self.new ≡ record (self.old) { encoder = self.new.encoder; digest = self.new.digest } }
    {
        self.digest = None;
        let Some(encoder) = self.encoder.take() else {
            return;
        };
        match item {
            Item::Ended => self.digest = digest_of(encoder),
            _ => self.encoder = encoder_after(encoder, item),
        }
    }
}

/// The HDR that an item is, if it is one.
fn opened(item: &Item) -> Option<Record>
    ensures { result ≡ opening_in (item.now ∷ []) }
{
    match item {
        Item::Opened(record) => {
            let shown = record.view();
            if is_of(&shown, Kind::Hdr) {
                Some(record.to_record())
            } else {
                None
            }
        }
        _ => None,
    }
}

/// The encoder of a transmission with one item more, where that was encoded.
fn encoder_after(encoder: Encoder<DigestedText>, item: &Item) -> Option<Encoder<DigestedText>>
    requires { item.now ≢ Item.Ended }
    ensures { (given : List Item) → HasEncoded encoder given → IfSome result (λ after. HasEncoded after (given ++ item.now ∷ [])) }
{
    let mut encoder = encoder;
    let put = match item {
        Item::Opened(record) => encoder.open(&record.to_record()),
        Item::GroupOpened(record) => encoder.group(&record.to_record()),
        Item::Transaction(transaction) => encoder.transaction(transaction),
        Item::GroupClosed(record) => encoder.end_group(&record.to_record()),
        Item::Ended => unreachable!(),
    };
    match put {
        Ok(()) => Some(encoder),
        Err(_) => None,
    }
}

/// The digest of the canonical text of a transmission that was encoded.
fn digest_of(encoder: Encoder<DigestedText>) -> Option<[u8; 32]>
    ensures { (given : List Item) → HasEncoded encoder given → IfSome result (λ digest. IsDigestOf digest (given ++ items.Ended ∷ [])) }
{
    match encoder.finish() {
        (text, Ok(_)) => Some(text.digest()),
        (_, Err(_)) => None,
    }
}

impl Report for SummedFile {
    ghost use Rattle.std.specs.Prelude.{◌≡◌, IfSome};
    ghost use Rattle.cwr_summaries.specs.Format.Summed.{lines_of_summing};
    ghost use Rattle.cwr_summaries.specs.Steps.Rows.{StandsAfter};
    ghost use Rattle.cwr_tools.specs.Format.Reports.{ItemLines};

    type Works = NothingKept;

    ghost stands = { λ report of given. (of ≡ lines_of_summing) × StandsAfter report given × IfSome report.advice (λ advice. (lines : ItemLines) × ⟦<AdviceLines as Report>⟧.stands advice lines given) };

    fn works(&self) -> NothingKept {
        NothingKept
    }

    fn passes(&self) -> bool {
        false
    }

    fn first_lines<W: Target>(&self, _: &mut Pen<'_, W>) {}

    fn item_lines<W: Target>(
        &mut self,
        alloc: Global,
        counts: &Totals,
        item: &Item,
        _: &mut Pen<'_, W>,
    ) -> Result<(), AllocError> {
        self.summary.add_item(alloc, item)?;
        self.note_header(item);
        self.advise(alloc, counts, item)?;
        self.encode(item);
        Ok(())
    }

    fn last_lines<W: Target>(&self, _: &Verdict, _: &mut Pen<'_, W>) {}
}

/// Takes what a reader shows next, and answers how many bytes that are: none at its end.
fn take_piece<R: Source>(reader: &mut R) -> Result<usize, DeviceFault>
    ensures piece { IfOk result (IsPiece (R.remaining reader.old) (R.remaining reader.new)) }
    ensures failures { CountsRead result (R.failures reader.old) (R.failures reader.new) }
{
    let count = reader.fill()?.len();
    reader.consume(count);
    Ok(count)
}

/// Reads what a reader has left up to its end, and counts the bytes. They stay at `u64::MAX`; more pieces than that are more than there is
/// room for.
fn read_rest<R: Source>(reader: &mut R) -> Result<u64, ToolFault>
    ensures rest { IfOk result (λ bytes. IfSome (R.remaining reader.old) (λ left. bytes ≡ min (length left) (2 ^ 64 - 1))) }
    ensures end { OnOk result (IfSome (R.remaining reader.old) (λ left. IsAtEnd (R.remaining reader.new))) }
    ensures failures { CountsFault result (R.failures reader.old) (R.failures reader.new) }
{
    let mut bytes: u64 = 0;
    for _piece in 0..u64::MAX {
        match take_piece(reader) {
            Ok(0) => return Ok(bytes),
            Ok(count) => bytes = bytes.saturating_add(count as u64),
            Err(_) => return Err(ToolFault::Reader),
        }
    }
    Err(ToolFault::Memory)
}

/// The same where the transmission was judged, and what follows it could be read so far. Else nothing is read.
pub(crate) fn read_on<R: Source>(
    judged: &Result<Judgement, ToolFault>,
    reader: &mut R,
) -> Result<u64, ToolFault>
    ensures rest { OnOk judged.now (IfOk result (λ bytes. IfSome (R.remaining reader.old)
        (λ left. bytes ≡ min (length left) (2 ^ 64 - 1)))) }
    ensures end { OnOk judged.now (OnOk result (IfSome (R.remaining reader.old) (λ left. IsAtEnd (R.remaining reader.new)))) }
    ensures failures { CountsRest judged.now result (R.failures reader.old) (R.failures reader.new) }
{
    match judged {
        Ok(judgement) => match judgement.look {
            Look::Failed => Err(ToolFault::Reader),
            Look::Found(_) | Look::Unasked => read_rest(reader),
        },
        Err(_) => Ok(0),
    }
}

/// Reads a transmission for a report of which nothing is kept, and looks what stands after it. The writer comes back.
pub(crate) fn judge<L: Report, R: Source, W: Target>(
    summing: &Summing<'_, '_>,
    lines: &mut L,
    reader: &mut R,
    nowhere: W,
) -> (W, Result<Judgement, ToolFault>)
    requires { (of : ItemLines) × L.stands lines.old of [] }
    ensures judges { IfOk result.1 (λ judgement. IfSome (R.remaining reader.old) (λ text. IsStatusBy (Counts None) summing.now.limits
        (wanted_of summing.now.whole) text judgement.status)) }
    ensures read { IfOk result.1 IsJudged }
    // The report is as the items before the verdict leave it, and what the reader lost behind a good transmission is counted.
    ensures stands { (of : ItemLines) → L.stands lines.old of [] → IfOk result.1 (λ judgement. IfSome (R.remaining reader.old)
        (λ text. Judges (L.stands lines.new of) summing.now.limits text (R.remaining reader.new) judgement)) }
    // A fault of the reader is answered only where it counted one more failure.
    ensures failures { CountsInput result.1 (R.failures reader.old) (R.failures reader.new) }
{
    let (nowhere, outcome) = write_report(lines, summing.alloc, summing.limits, reader, nowhere);
    let look = look_after(reader, &outcome);
    let wanted = Wanted {
        whole: summing.whole,
        fail_on: None,
    };
    (nowhere, judgement_of(wanted, outcome, look, false))
}
