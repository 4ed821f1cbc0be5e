//! The lines of items.

ghost use Rattle.std.specs.Prelude.{◌≡◌, [], is_none, length, option_map, true, false, if◌then◌else◌};
ghost use Rattle.cwr_devices.specs.Steps.Pens.{Adds};
ghost use Rattle.cwr_delivery.specs.Format.Acknowledgements.{is_ack, worst_level};
ghost use Rattle.cwr_acks.specs.Format.AckTexts.{marked_if, note_lines, outcome_line};
ghost use Rattle.cwr_acks.specs.Format.AckLines.{has_one_of, is_told, note_lines_if, telling_of};
ghost use Rattle.cwr_acks.specs.Steps.AckSteps.{after_ack, answer_parts, before_ack, closing_as, counts_parts, end_at, held_if, held_lines_if};
ghost use Rattle.cwr_acks.specs.Steps.AckSteps.{lines_at, message_in, messages_in, opening_in, transaction_at};

use crate::counts::Answers;
use crate::data_texts::counts_data_text;
use crate::forms::{Cells, Form, Manner, ack_in, message_as};
use crate::line_texts::{counts_text, marked_line, renumbered_line};
use crate::names::{name_member, name_of_notes, sent_part};
use crate::unanswered::held_lines_if;
use cwr_delivery::{Delivery, Notes, Outcome, has_status, is_ack, is_message, worst_level};
use cwr_devices::{Pen, Target};
use cwr_fields::{TransactionStatus, letters};
use cwr_lines::RecordRef;
use cwr_values::{Item, Transaction};

/// Adds what stands before the text of an acknowledgement.
fn before_ack<W: Target>(form: Form, file: Option<&[u8]>, name: Option<&[u8]>, pen: &mut Pen<'_, W>)
    ensures { Adds W.contents W.failures (before_ack form (option_map (λ n. n.now) file.entry)
        (option_map (λ n. n.now) name.entry)) pen.old pen.new }
{
    match form {
        Form::Words(_) => {}
        Form::Json(_) => {
            pen.text(b"{");
            name_member(b"\"file\":", file, pen);
            name_member(b"\"sent\":", name, pen);
        }
    }
}

/// Adds what stands after the text of an acknowledgement, and before its messages.
fn after_ack<W: Target>(form: Form, name: Option<&[u8]>, pen: &mut Pen<'_, W>)
    ensures { Adds W.contents W.failures (after_ack form (option_map (λ n. n.now) name.entry)) pen.old
        pen.new }
{
    match form {
        Form::Words(_) => {
            sent_part(name, pen);
            pen.text(b"\n");
        }
        Form::Json(_) => {}
    }
}

/// Adds what stands before the messages of an acknowledgement with that header.
fn opening_in<W: Target>(
    manner: &Manner<'_>,
    notes: &Option<Notes>,
    head: &RecordRef<'_>,
    transaction: &Transaction,
    pen: &mut Pen<'_, W>,
)
    requires { is_ack head.now ≡ true }
    ensures { Adds W.contents W.failures (opening_in (telling_of manner.now) notes.now head.now
        (worst_level transaction.now)) pen.old pen.new }
{
    let name = name_of_notes(manner, notes);
    before_ack(manner.form, manner.file, name, pen);
    ack_in(manner.form, notes, head, worst_level(transaction), pen);
    after_ack(manner.form, name, pen);
}

/// Adds the text of a record, if that is a message: it comes after others, or is the first.
fn message_in<W: Target>(form: Form, later: bool, shown: &RecordRef<'_>, pen: &mut Pen<'_, W>)
    ensures { Adds W.contents W.failures (message_in form later shown.now) pen.old pen.new }
{
    if !is_message(shown) {
        return;
    }
    message_as(form, later, shown, pen);
}

/// Adds the texts of a transaction's messages.
fn messages_in<W: Target>(form: Form, transaction: &Transaction, pen: &mut Pen<'_, W>)
    ensures { Adds W.contents W.failures (messages_in form transaction.now) pen.old pen.new }
{
    let count = transaction.len();
    let mut later = false;
    let mut i: usize = 0;
    while let Some(shown) = transaction.record(i) {
        message_in(form, later, &shown, pen);
        prove!(i < count);
        later |= is_message(&shown);
        i += 1;
    }
}

/// Adds a line of a word alone, where it is to be told.
fn marked_if<W: Target>(
    cells: Cells,
    told: bool,
    word: &[u8],
    head: &RecordRef<'_>,
    pen: &mut Pen<'_, W>,
)
    requires { is_ack head.now ≡ true }
    ensures { Adds W.contents W.failures (marked_if cells told word.now head.now) pen.old pen.new }
{
    if !told {
        return;
    }
    marked_line(cells, word, head, b"", pen);
}

/// Adds the line on why an acknowledgement answers nothing.
fn outcome_line<W: Target>(
    cells: Cells,
    outcome: &Outcome,
    head: &RecordRef<'_>,
    pen: &mut Pen<'_, W>,
)
    requires { is_ack head.now ≡ true }
    ensures { Adds W.contents W.failures (outcome_line cells outcome.now head.now) pen.old pen.new }
{
    match outcome {
        Outcome::Answers { .. } => {}
        Outcome::Unsent => marked_line(cells, b"UNSENT ", head, b"", pen),
        Outcome::Unclear => marked_line(cells, b"UNCLEAR ", head, b"", pen),
        Outcome::Retyped(kind) => marked_line(cells, b"RETYPED ", head, letters(*kind), pen),
        Outcome::Renumbered(number) => renumbered_line(cells, head, number, pen),
    }
}

/// Adds the lines of what is told of an acknowledgement beside what it says.
fn note_lines<W: Target>(cells: Cells, notes: &Notes, head: &RecordRef<'_>, pen: &mut Pen<'_, W>)
    requires { is_ack head.now ≡ true }
    ensures { Adds W.contents W.failures (note_lines cells notes.now head.now) pen.old pen.new }
{
    marked_if(cells, notes.unkeyed, b"UNKEYED ", head, pen);
    outcome_line(cells, &notes.outcome, head, pen);
    marked_if(cells, notes.retitled, b"RETITLED ", head, pen);
    marked_if(cells, notes.again, b"AGAIN ", head, pen);
}

/// The same, where it is matched with what was sent.
fn note_lines_if<W: Target>(
    cells: Cells,
    notes: &Option<Notes>,
    head: &RecordRef<'_>,
    pen: &mut Pen<'_, W>,
)
    requires { is_ack head.now ≡ true }
    ensures { Adds W.contents W.failures (note_lines_if cells notes.now head.now) pen.old pen.new }
{
    match notes {
        Some(notes) => note_lines(cells, notes, head, pen),
        None => {}
    }
}

/// Adds what stands after the messages of an acknowledgement with that header.
fn closing_as<W: Target>(
    form: Form,
    notes: &Option<Notes>,
    head: &RecordRef<'_>,
    pen: &mut Pen<'_, W>,
)
    requires { is_ack head.now ≡ true }
    ensures { Adds W.contents W.failures (closing_as form notes.now head.now) pen.old pen.new }
{
    match form {
        Form::Words(cells) => note_lines_if(cells, notes, head, pen),
        Form::Json(_) => pen.text(b"]}\n"),
    }
}

/// Adds the lines of an acknowledgement with that header.
fn answer_parts<W: Target>(
    manner: &Manner<'_>,
    notes: &Option<Notes>,
    head: &RecordRef<'_>,
    transaction: &Transaction,
    pen: &mut Pen<'_, W>,
)
    requires { is_ack head.now ≡ true }
    ensures { Adds W.contents W.failures (answer_parts (telling_of manner.now) notes.now head.now
        transaction.now) pen.old pen.new }
{
    opening_in(manner, notes, head, transaction, pen);
    messages_in(manner.form, transaction, pen);
    closing_as(manner.form, notes, head, pen);
}

/// Whether a transaction has one of these statuses.
fn has_one_of(statuses: &[TransactionStatus], transaction: &Transaction) -> bool
    ensures { result ≡ has_one_of statuses.now transaction.now }
{
    statuses
        .iter()
        .any(|status| has_status(*status, transaction))
}

/// Whether a transaction has one of these statuses, where there are any.
fn is_told(statuses: &[TransactionStatus], transaction: &Transaction) -> bool
    ensures { result ≡ is_told statuses.now transaction.now }
{
    statuses.is_empty() || has_one_of(statuses, transaction)
}

/// Adds the lines of a transaction, if that is an acknowledgement that is told.
fn transaction_at<W: Target>(
    manner: &Manner<'_>,
    notes: &Option<Notes>,
    transaction: &Transaction,
    pen: &mut Pen<'_, W>,
)
    ensures { Adds W.contents W.failures
        (transaction_at (telling_of manner.now) notes.now transaction.now) pen.old pen.new }
{
    let Some(head) = transaction.record(0) else {
        return;
    };
    if !is_ack(&head) || !is_told(manner.statuses, transaction) {
        return;
    }
    answer_parts(manner, notes, &head, transaction, pen);
}

/// Adds the line of counts.
fn counts_parts<W: Target>(form: Form, file: Option<&[u8]>, answers: &Answers, pen: &mut Pen<'_, W>)
    requires { length answers.now.by_status ≡ 10 }
    ensures { Adds W.contents W.failures
        (counts_parts form (option_map (λ n. n.now) file.entry) answers.now) pen.old pen.new }
{
    match form {
        Form::Words(_) => counts_text(answers, pen),
        Form::Json(_) => {
            pen.text(b"{");
            name_member(b"\"file\":", file, pen);
            counts_data_text(answers, pen);
        }
    }
}

/// Adds what isn't answered, where there is one file alone.
fn unanswered_alone<W: Target>(
    manner: &Manner<'_>,
    delivery: &Option<Delivery>,
    pen: &mut Pen<'_, W>,
)
    ensures { Adds W.contents W.failures (if is_none (telling_of manner.now).file
        then held_lines_if (telling_of manner.now) (held_if delivery.now) else []) pen.old pen.new }
{
    match manner.file {
        Some(_) => {}
        None => held_lines_if(manner, delivery, pen),
    }
}

/// Adds what stands at the end: what isn't answered, and the counts.
pub(crate) fn end_at<W: Target>(
    manner: &Manner<'_>,
    delivery: &Option<Delivery>,
    answers: &Answers,
    pen: &mut Pen<'_, W>,
)
    requires { length answers.now.by_status ≡ 10 }
    ensures { Adds W.contents W.failures (end_at (telling_of manner.now) (held_if delivery.now)
        answers.now) pen.old pen.new }
{
    unanswered_alone(manner, delivery, pen);
    counts_parts(manner.form, manner.file, answers, pen);
}

/// Adds the lines of an item that comes after so many acknowledgements.
pub(crate) fn lines_at<W: Target>(
    manner: &Manner<'_>,
    delivery: &Option<Delivery>,
    notes: &Option<Notes>,
    answers: &Answers,
    item: &Item,
    pen: &mut Pen<'_, W>,
)
    requires { length answers.now.by_status ≡ 10 }
    ensures { Adds W.contents W.failures (lines_at (telling_of manner.now) (held_if delivery.now)
        notes.now answers.now item.now) pen.old pen.new }
{
    match item {
        Item::Transaction(transaction) => transaction_at(manner, notes, transaction, pen),
        Item::Ended => end_at(manner, delivery, answers, pen),
        Item::Opened(_) | Item::GroupOpened(_) | Item::GroupClosed(_) => {}
    }
}
