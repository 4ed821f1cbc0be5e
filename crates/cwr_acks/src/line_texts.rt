//! Lines for people, part by part.

ghost use Rattle.std.specs.Prelude.{◌≡◌, ◌≤◌, codes, length, true};
ghost use Rattle.cwr_devices.specs.Steps.Pens.{Adds};
ghost use Rattle.cwr_delivery.specs.Format.Acknowledgements.{is_ack, is_message};
ghost use Rattle.cwr_acks.specs.Format.AckTexts.{ack_text, cell_part, level_part, marked_line, message_line, number_part, original_text, shown_as, status_part};
ghost use Rattle.cwr_acks.specs.Format.AckTexts.{status_text, unanswered_text, value_part, words_of};
ghost use Rattle.cwr_acks.specs.Steps.AckSteps.{counts_text, marked_text, status_parts};
ghost use Rattle.cwr_fields.specs.Format.MessageCodes.{status_code};

use crate::counts::{Answers, STATUSES};
use crate::forms::Cells;
use cwr_delivery::{
    GROUP, LEVEL, MESSAGE, MESSAGE_TYPE, ORIGINAL_TYPE, RECIPIENT_NUMBER, RECORD, RECORD_TYPE,
    SEQUENCE, STATUS, SUBMITTER_NUMBER, TITLE, VALIDATION, status_of,
};
use cwr_devices::{Pen, Target};
use cwr_fields::{Coded, MessageLevel, TransactionStatus, is_spaces, letters, trimmed};
use cwr_findings::{cell, number_of};
use cwr_json::characters;
use cwr_lines::RecordRef;
use cwr_sent::SentFacts;

/// Adds a cell without trailing spaces.
fn shown_as<W: Target>(cells: Cells, cell: &[u8], pen: &mut Pen<'_, W>)
    ensures { Adds W.contents W.failures (shown_as cells cell.now) pen.old pen.new }
{
    match cells {
        Cells::Bytes => pen.text(trimmed(cell)),
        Cells::Characters(encoding) => characters(encoding, trimmed(cell), pen),
    }
}

/// Adds a cell after a word, unless it is blank.
fn cell_part<W: Target>(cells: Cells, word: &[u8], cell: &[u8], pen: &mut Pen<'_, W>)
    ensures { Adds W.contents W.failures (cell_part cells word.now cell.now) pen.old pen.new }
{
    if is_spaces(cell) {
        return;
    }
    pen.text(word);
    shown_as(cells, cell, pen);
}

/// Adds a number after a word, unless it is blank.
pub(crate) fn number_part<W: Target>(word: &[u8], cell: &[u8], pen: &mut Pen<'_, W>)
    requires { length cell.now ≤ 8 }
    ensures { Adds W.contents W.failures (number_part word.now cell.now) pen.old pen.new }
{
    if is_spaces(cell) {
        return;
    }
    pen.text(word);
    pen.number(number_of(cell));
}

/// The words of a status.
pub(crate) fn words_of(status: TransactionStatus) -> &'static str
    ensures { result.now ≡ words_of status }
{
    match status {
        TransactionStatus::Conflict => "conflict",
        TransactionStatus::Duplicate => "duplicate",
        TransactionStatus::TransactionAccepted => "transaction accepted",
        TransactionStatus::RegistrationAccepted => "registration accepted",
        TransactionStatus::AcceptedWithChanges => "registration accepted with changes",
        TransactionStatus::ReadyForPayment => "registration accepted, ready for payment",
        TransactionStatus::ChangedReadyForPayment => {
            "registration accepted with changes, ready for payment"
        }
        TransactionStatus::Rejected => "rejected",
        TransactionStatus::NoParticipation => "no participation",
        TransactionStatus::ClaimRejected => "claim rejected",
    }
}

/// Adds the status of an acknowledgement, and its words.
fn status_text<W: Target>(shown: &RecordRef<'_>, pen: &mut Pen<'_, W>)
    requires { is_ack shown.now ≡ true }
    ensures { Adds W.contents W.failures (status_text shown.now) pen.old pen.new }
{
    pen.text(cell(shown, STATUS));
    pen.text(b" ");
    pen.words(words_of(status_of(shown)));
}

/// Adds which transaction an acknowledgement answers.
fn original_text<W: Target>(shown: &RecordRef<'_>, pen: &mut Pen<'_, W>)
    requires { is_ack shown.now ≡ true }
    ensures { Adds W.contents W.failures (original_text shown.now) pen.old pen.new }
{
    pen.text(b"group ");
    pen.number(number_of(cell(shown, GROUP)));
    pen.text(b" transaction ");
    pen.number(number_of(cell(shown, SEQUENCE)));
    pen.text(b" ");
    pen.text(trimmed(cell(shown, ORIGINAL_TYPE)));
}

/// Adds the worst level of messages, if there are any.
fn level_part<W: Target>(worst: Option<MessageLevel>, pen: &mut Pen<'_, W>)
    ensures { Adds W.contents W.failures (level_part worst) pen.old pen.new }
{
    match worst {
        Some(level) => {
            pen.text(b" level ");
            pen.words(level.code());
        }
        None => {}
    }
}

/// Adds what stands for an acknowledgement in what was sent.
fn value_part<W: Target>(value: &[u8], pen: &mut Pen<'_, W>)
    ensures { Adds W.contents W.failures (value_part value.now) pen.old pen.new }
{
    if value.is_empty() {
        return;
    }
    pen.text(b" sent ");
    pen.text(value);
}

/// Adds a status, and how many acknowledgements have it.
fn status_part<W: Target>(status: TransactionStatus, count: u64, pen: &mut Pen<'_, W>)
    ensures { Adds W.contents W.failures (status_part (status_code status) count) pen.old pen.new }
{
    pen.text(b" ");
    pen.words(status.code());
    pen.text(b" ");
    pen.number(count);
}

/// Adds the text of an acknowledgement whose messages have that worst level.
pub(crate) fn ack_text<W: Target>(
    cells: Cells,
    shown: &RecordRef<'_>,
    worst: Option<MessageLevel>,
    pen: &mut Pen<'_, W>,
)
    requires { is_ack shown.now ≡ true }
    ensures { Adds W.contents W.failures (ack_text cells shown.now worst) pen.old pen.new }
{
    status_text(shown, pen);
    pen.text(b": ");
    original_text(shown, pen);
    level_part(worst, pen);
    cell_part(cells, b" submitter ", cell(shown, SUBMITTER_NUMBER), pen);
    cell_part(cells, b" recipient ", cell(shown, RECIPIENT_NUMBER), pen);
    cell_part(cells, b" title ", cell(shown, TITLE), pen);
}

/// Adds the line of a message.
pub(crate) fn message_line<W: Target>(cells: Cells, shown: &RecordRef<'_>, pen: &mut Pen<'_, W>)
    requires { is_message shown.now ≡ true }
    ensures { Adds W.contents W.failures (message_line cells shown.now) pen.old pen.new }
{
    pen.text(b"  level ");
    pen.text(cell(shown, LEVEL));
    pen.text(b" type ");
    pen.text(cell(shown, MESSAGE_TYPE));
    number_part(b" record ", cell(shown, RECORD), pen);
    cell_part(cells, b" ", cell(shown, RECORD_TYPE), pen);
    cell_part(cells, b" validation ", cell(shown, VALIDATION), pen);
    pen.text(b": ");
    shown_as(cells, cell(shown, MESSAGE), pen);
    pen.text(b"\n");
}

/// Adds a word on an acknowledgement, and what it says of itself.
fn marked_text<W: Target>(cells: Cells, word: &[u8], shown: &RecordRef<'_>, pen: &mut Pen<'_, W>)
    requires { is_ack shown.now ≡ true }
    ensures { Adds W.contents W.failures (marked_text cells word.now shown.now) pen.old pen.new }
{
    pen.text(word);
    original_text(shown, pen);
    cell_part(cells, b" submitter ", cell(shown, SUBMITTER_NUMBER), pen);
    cell_part(cells, b" title ", cell(shown, TITLE), pen);
}

/// Adds a line of a word on an acknowledgement, with what stands for it in what was sent.
pub(crate) fn marked_line<W: Target>(
    cells: Cells,
    word: &[u8],
    shown: &RecordRef<'_>,
    value: &[u8],
    pen: &mut Pen<'_, W>,
)
    requires { is_ack shown.now ≡ true }
    ensures { Adds W.contents W.failures (marked_line cells word.now shown.now value.now) pen.old
        pen.new }
{
    marked_text(cells, word, shown, pen);
    value_part(value, pen);
    pen.text(b"\n");
}

/// Adds such a line with a number that stands for it there.
pub(crate) fn renumbered_line<W: Target>(
    cells: Cells,
    shown: &RecordRef<'_>,
    number: &[u8],
    pen: &mut Pen<'_, W>,
)
    requires { is_ack shown.now ≡ true }
    ensures { Adds W.contents W.failures
        (marked_line cells (codes "RENUMBERED ") shown.now (shown_as cells number.now)) pen.old pen.new }
{
    marked_text(cells, b"RENUMBERED ", shown, pen);
    cell_part(cells, b" sent ", number, pen);
    pen.text(b"\n");
}

/// Adds the line of a transaction that isn't answered.
pub(crate) fn unanswered_text<W: Target>(
    cells: Cells,
    group: u64,
    sequence: u64,
    facts: &SentFacts,
    pen: &mut Pen<'_, W>,
)
    ensures { Adds W.contents W.failures (unanswered_text cells group sequence facts.now) pen.old
        pen.new }
{
    pen.text(b"UNANSWERED group ");
    pen.number(group);
    pen.text(b" transaction ");
    pen.number(sequence);
    pen.text(b" ");
    pen.text(letters(facts.kind));
    cell_part(cells, b" submitter ", &facts.number, pen);
    pen.text(b"\n");
}

/// Adds how many acknowledgements have each status.
fn status_parts<W: Target>(answers: &Answers, pen: &mut Pen<'_, W>)
    requires { length answers.now.by_status ≡ 10 }
    ensures { Adds W.contents W.failures (status_parts answers.now.by_status) pen.old pen.new }
{
    for i in 0..10 {
        status_part(STATUSES[i], answers.by_status[i], pen);
    }
}

/// Adds the line of counts.
pub(crate) fn counts_text<W: Target>(answers: &Answers, pen: &mut Pen<'_, W>)
    requires { length answers.now.by_status ≡ 10 }
    ensures { Adds W.contents W.failures (counts_text answers.now) pen.old pen.new }
{
    pen.text(b"ACKS ");
    pen.number(answers.all);
    status_parts(answers, pen);
    pen.text(b"\n");
}
