//! Lines of JSON, part by part.

ghost use Rattle.std.specs.Prelude.{◌≡◌, ◌++◌, codes, false, length, true, zip};
ghost use Rattle.cwr_devices.specs.Steps.Pens.{Adds};
ghost use Rattle.cwr_fields.specs.Format.Kinds.{letters};
ghost use Rattle.cwr_fields.specs.Format.MessageCodes.{status_code, transaction_statuses};
ghost use Rattle.cwr_lines.specs.Format.Records.{IsRecord};
ghost use Rattle.cwr_delivery.specs.Format.Acknowledgements.{is_ack, is_message};
ghost use Rattle.cwr_acks.specs.Steps.DataTexts.{ack_members, cell_at, cell_member, cell_member_if, comma_if, count_member, count_members, counts_data_text, level_member};
ghost use Rattle.cwr_acks.specs.Steps.DataTexts.{mark_part, message_part, notes_members_if, original_members, outcome_member, shown_cell, status_members, unanswered_members};

use crate::counts::{Answers, STATUSES};
use crate::line_texts::{number_part, words_of};
use cwr_delivery::{
    LEVEL, MESSAGE, MESSAGE_TYPE, Notes, ORIGINAL_TYPE, Outcome, RECIPIENT_NUMBER, RECORD,
    RECORD_TYPE, STATUS, SUBMITTER_NUMBER, TITLE, VALIDATION, group_of, sequence_of, status_of,
};
use cwr_devices::{Pen, Target};
use cwr_fields::{Coded, Kind, MessageLevel, TransactionStatus, is_spaces, letters, trimmed};
use cwr_findings::cell;
use cwr_json::{Encoding, escaped_characters};
use cwr_lines::RecordRef;
use cwr_sent::SentFacts;

/// Adds a cell between quotes, without trailing spaces.
fn shown_cell<W: Target>(encoding: Encoding, cell: &[u8], pen: &mut Pen<'_, W>)
    ensures { Adds W.contents W.failures (shown_cell encoding cell.now) pen.old pen.new }
{
    pen.text(b"\"");
    escaped_characters(encoding, trimmed(cell), pen);
    pen.text(b"\"");
}

/// Adds the cell of field `j` after its key.
fn member<W: Target>(
    encoding: Encoding,
    key: &[u8],
    shown: &RecordRef<'_>,
    j: u8,
    pen: &mut Pen<'_, W>,
)
    ensures adds { Adds W.contents W.failures (cell_member encoding key.now (cell_at shown.now j))
        pen.old pen.new }
    ensures fits { IsRecord shown.now }
{
    pen.text(key);
    shown_cell(encoding, cell(shown, j), pen);
}

/// Adds the cell of field `j` after its key, unless it is blank.
fn member_if<W: Target>(
    encoding: Encoding,
    key: &[u8],
    shown: &RecordRef<'_>,
    j: u8,
    pen: &mut Pen<'_, W>,
)
    ensures adds { Adds W.contents W.failures
        (cell_member_if encoding key.now (cell_at shown.now j)) pen.old pen.new }
    ensures fits { IsRecord shown.now }
{
    if is_spaces(cell(shown, j)) {
        return;
    }
    member(encoding, key, shown, j, pen);
}

/// Adds the status of an acknowledgement, and its words.
fn status_members<W: Target>(encoding: Encoding, shown: &RecordRef<'_>, pen: &mut Pen<'_, W>)
    requires { is_ack shown.now ≡ true }
    ensures { Adds W.contents W.failures (status_members encoding shown.now) pen.old pen.new }
{
    member(encoding, b"\"status\":", shown, STATUS, pen);
    pen.text(b",\"words\":\"");
    pen.words(words_of(status_of(shown)));
    pen.text(b"\"");
}

/// Adds which transaction an acknowledgement answers.
fn original_members<W: Target>(encoding: Encoding, shown: &RecordRef<'_>, pen: &mut Pen<'_, W>)
    requires { is_ack shown.now ≡ true }
    ensures { Adds W.contents W.failures (original_members encoding shown.now) pen.old pen.new }
{
    pen.text(b",\"group\":");
    pen.number(group_of(shown) as u64);
    pen.text(b",\"transaction\":");
    pen.number(sequence_of(shown) as u64);
    member(encoding, b",\"type\":", shown, ORIGINAL_TYPE, pen);
}

/// Adds the worst level of messages, if there are any.
fn level_member<W: Target>(worst: Option<MessageLevel>, pen: &mut Pen<'_, W>)
    ensures { Adds W.contents W.failures (level_member worst) pen.old pen.new }
{
    match worst {
        Some(level) => {
            pen.text(b",\"level\":\"");
            pen.words(level.code());
            pen.text(b"\"");
        }
        None => {}
    }
}

/// Adds a mark, where it is there.
fn mark_part<W: Target>(mark: &[u8], there: bool, pen: &mut Pen<'_, W>)
    ensures { Adds W.contents W.failures (mark_part mark.now there) pen.old pen.new }
{
    match there {
        true => pen.text(mark),
        false => {}
    }
}

/// Adds a type between quotes after its key.
fn kind_member<W: Target>(key: &[u8], kind: Kind, pen: &mut Pen<'_, W>)
    ensures { Adds W.contents W.failures (key.now ++ letters kind ++ codes "\"") pen.old pen.new }
{
    pen.text(key);
    pen.text(letters(kind));
    pen.text(b"\"");
}

/// Adds a submitter's number between quotes after its key, without trailing spaces.
fn number_member<W: Target>(encoding: Encoding, key: &[u8], number: &[u8; 14], pen: &mut Pen<'_, W>)
    ensures { Adds W.contents W.failures (cell_member encoding key.now number.now) pen.old pen.new }
{
    pen.text(key);
    shown_cell(encoding, number, pen);
}

/// Adds it, unless it is blank.
fn number_member_if<W: Target>(
    encoding: Encoding,
    key: &[u8],
    number: &[u8; 14],
    pen: &mut Pen<'_, W>,
)
    ensures { Adds W.contents W.failures (cell_member_if encoding key.now number.now) pen.old pen.new }
{
    if is_spaces(number) {
        return;
    }
    number_member(encoding, key, number, pen);
}

/// Adds why an acknowledgement answers nothing.
fn outcome_member<W: Target>(encoding: Encoding, outcome: &Outcome, pen: &mut Pen<'_, W>)
    ensures { Adds W.contents W.failures (outcome_member encoding outcome.now) pen.old pen.new }
{
    match outcome {
        Outcome::Answers { .. } => {}
        Outcome::Unsent => pen.text(b",\"unsent\":true"),
        Outcome::Unclear => pen.text(b",\"unclear\":true"),
        Outcome::Retyped(kind) => kind_member(b",\"retyped\":\"", *kind, pen),
        Outcome::Renumbered(number) => {
            number_member(encoding, b",\"renumbered\":", number, pen);
        }
    }
}

/// Adds what is told of an acknowledgement beside what it says.
fn notes_members_if<W: Target>(encoding: Encoding, notes: &Option<Notes>, pen: &mut Pen<'_, W>)
    ensures { Adds W.contents W.failures (notes_members_if encoding notes.now) pen.old pen.new }
{
    match notes {
        Some(notes) => {
            mark_part(b",\"unkeyed\":true", notes.unkeyed, pen);
            outcome_member(encoding, &notes.outcome, pen);
            mark_part(b",\"retitled\":true", notes.retitled, pen);
            mark_part(b",\"again\":true", notes.again, pen);
        }
        None => {}
    }
}

/// Adds a comma before what comes after others.
fn comma_if<W: Target>(later: bool, pen: &mut Pen<'_, W>)
    ensures { Adds W.contents W.failures (comma_if later) pen.old pen.new }
{
    match later {
        true => pen.text(b","),
        false => {}
    }
}

/// Adds how many acknowledgements have a status, after others or as the first.
fn count_member<W: Target>(later: bool, status: TransactionStatus, count: u64, pen: &mut Pen<'_, W>)
    ensures { Adds W.contents W.failures (count_member later (status_code status) count) pen.old
        pen.new }
{
    comma_if(later, pen);
    pen.text(b"\"");
    pen.words(status.code());
    pen.text(b"\":");
    pen.number(count);
}

/// Adds what stands before the messages in the object of an acknowledgement whose messages have that worst level, but for names.
pub(crate) fn ack_members<W: Target>(
    encoding: Encoding,
    notes: &Option<Notes>,
    shown: &RecordRef<'_>,
    worst: Option<MessageLevel>,
    pen: &mut Pen<'_, W>,
)
    requires { is_ack shown.now ≡ true }
    ensures { Adds W.contents W.failures (ack_members encoding notes.now shown.now worst) pen.old
        pen.new }
{
    status_members(encoding, shown, pen);
    original_members(encoding, shown, pen);
    level_member(worst, pen);
    member_if(encoding, b",\"submitter\":", shown, SUBMITTER_NUMBER, pen);
    member_if(encoding, b",\"recipient\":", shown, RECIPIENT_NUMBER, pen);
    member_if(encoding, b",\"title\":", shown, TITLE, pen);
    notes_members_if(encoding, notes, pen);
    pen.text(b",\"messages\":[");
}

/// Adds the object of a message, after others or as the first.
pub(crate) fn message_part<W: Target>(
    encoding: Encoding,
    later: bool,
    shown: &RecordRef<'_>,
    pen: &mut Pen<'_, W>,
)
    requires { is_message shown.now ≡ true }
    ensures { Adds W.contents W.failures (message_part encoding later shown.now) pen.old pen.new }
{
    comma_if(later, pen);
    member(encoding, b"{\"level\":", shown, LEVEL, pen);
    member(encoding, b",\"type\":", shown, MESSAGE_TYPE, pen);
    number_part(b",\"record\":", cell(shown, RECORD), pen);
    member_if(encoding, b",\"record_type\":", shown, RECORD_TYPE, pen);
    member_if(encoding, b",\"validation\":", shown, VALIDATION, pen);
    member(encoding, b",\"text\":", shown, MESSAGE, pen);
    pen.text(b"}");
}

/// Adds what stands after the name of what was sent in the line of a transaction that isn't answered.
pub(crate) fn unanswered_members<W: Target>(
    encoding: Encoding,
    group: u64,
    sequence: u64,
    facts: &SentFacts,
    pen: &mut Pen<'_, W>,
)
    ensures { Adds W.contents W.failures (unanswered_members encoding group sequence facts.now)
        pen.old pen.new }
{
    pen.text(b"\"group\":");
    pen.number(group);
    pen.text(b",\"transaction\":");
    pen.number(sequence);
    pen.text(b",\"type\":\"");
    pen.text(letters(facts.kind));
    pen.text(b"\"");
    number_member_if(encoding, b",\"submitter\":", &facts.number, pen);
    pen.text(b"}}\n");
}

/// Adds how many acknowledgements have each status.
fn count_members<W: Target>(answers: &Answers, pen: &mut Pen<'_, W>)
    requires { length answers.now.by_status ≡ 10 }
    ensures { Adds W.contents W.failures (count_members false (zip transaction_statuses answers.now.by_status)) pen.old pen.new }
{
    for i in 0..10 {
        count_member(i > 0, STATUSES[i], answers.by_status[i], pen);
    }
}

/// Adds the line of counts, but for what stands before its first key.
pub(crate) fn counts_data_text<W: Target>(answers: &Answers, pen: &mut Pen<'_, W>)
    requires { length answers.now.by_status ≡ 10 }
    ensures { Adds W.contents W.failures
        (counts_data_text answers.now.all answers.now.by_status) pen.old pen.new }
{
    pen.text(b"\"acks\":");
    pen.number(answers.all);
    pen.text(b",\"statuses\":{");
    count_members(answers, pen);
    pen.text(b"}}\n");
}
