//! The texts of rows.

ghost use Rattle.std.specs.Prelude.{◌≡◌, ◌≤◌, List, ◌++◌, codes, length, option_map, take, drop};
ghost use Rattle.cwr_devices.specs.Steps.Pens.{Adds};
ghost use Rattle.cwr_fields.specs.Format.Bytes.{trimmed};
ghost use Rattle.cwr_sent.specs.declared.answers.AnsweringFile.{AnsweringFile};
ghost use Rattle.cwr_sent.specs.Format.GroupRows.{answer_in};
ghost use Rattle.cwr_state_rows.specs.Format.RowTexts.{csv_answer, csv_answer_if, csv_rest, csv_sent, date_of, digit_at, json_answer, json_answer_if};
ghost use Rattle.cwr_state_rows.specs.Format.RowTexts.{json_rest, json_sent, level_of, member, name_part, next_shown, rest_part};
ghost use Rattle.cwr_state_rows.specs.Format.StateRows.{state_by};
ghost use Rattle.cwr_state_rows.specs.Steps.HeldRows.{kept_row, kept_text, shared_by};

use crate::forms::Form;
use arrayvec::ArrayVec;
use cwr_devices::{Pen, Target};
use cwr_fields::{Coded, MessageLevel, letters, trimmed};
use cwr_json::{Encoding, escaped_characters};
use cwr_sent::{AnsweringFile, KeptAnswer, SentFacts, file_of};
use cwr_states::State;
use cwr_tables::{next_characters, next_number};

/// What the rows of a transaction have in common.
#[derive(Clone, Copy, Debug)]
pub(crate) struct Front<'a> {
    /// In what form they are put.
    pub(crate) form: Form,
    /// The name of what was sent, as it is shown.
    pub(crate) name: Option<&'a [u8]>,
    /// Its group, from 1.
    pub(crate) group: u64,
    /// The transaction in that, from 0.
    pub(crate) transaction: u64,
    /// What is kept of it.
    pub(crate) facts: SentFacts,
}

/// A sender's type, a space, and its ID.
fn spaced(sender: &[u8; 11]) -> [u8; 12]
    ensures { result ≡ take 2 sender.now ++ codes " " ++ drop 2 sender.now }
{
    let [a, b, c, d, e, f, g, h, i, j, k] = *sender;
    [a, b, b' ', c, d, e, f, g, h, i, j, k]
}

/// A digit of a number, by its unit.
fn digit(number: u32, unit: u32) -> u8
    requires { 1 ≤ unit }
    ensures { result ≡ digit_at number unit }
{
    b'0' + (number / unit % 10) as u8
}

/// A date's eight digits; none where there is no date.
fn date(number: u32) -> ArrayVec<u8, 8>
    ensures value { result.items ≡ date_of number }
    ensures len { length result.items ≤ 8 }
{
    let mut text = ArrayVec::new();
    if number == 0 {
        return text;
    }
    let _fits = text.try_extend_from_slice(&[
        digit(number, 10_000_000),
        digit(number, 1_000_000),
        digit(number, 100_000),
        digit(number, 10_000),
        digit(number, 1_000),
        digit(number, 100),
        digit(number, 10),
        digit(number, 1),
    ]);
    text
}

/// The code of a level, where there is one.
fn level(level: Option<MessageLevel>) -> &'static [u8]
    ensures value { result.now ≡ level_of level }
    ensures len { length result.now ≤ 1 }
{
    match level {
        Some(level) => level.code().as_bytes(),
        None => b"",
    }
}

/// What became of a transaction, by an answer to it.
fn state_by(answer: Option<&KeptAnswer>) -> State
    ensures { (files : List AnsweringFile)
        → result ≡ state_by (option_map (answer_in files) (option_map (λ a. a.now) answer.entry)) }
{
    match answer {
        Some(answer) => State::of(answer.status),
        None => State::Unanswered,
    }
}

/// Adds a cell without trailing spaces after others, in the characters that its bytes are shown as.
fn next_trimmed<W: Target>(encoding: Encoding, cell: &[u8], pen: &mut Pen<'_, W>)
    ensures { Adds W.contents W.failures (next_shown encoding (trimmed cell.now)) pen.old pen.new }
{
    next_characters(encoding, trimmed(cell), pen);
}

/// Adds the cells of what was sent.
fn csv_sent<W: Target>(
    encoding: Encoding,
    group: u64,
    transaction: u64,
    facts: &SentFacts,
    pen: &mut Pen<'_, W>,
)
    ensures { Adds W.contents W.failures (csv_sent encoding group transaction facts.now) pen.old pen.new }
{
    next_number(group, pen);
    next_number(transaction, pen);
    next_characters(encoding, letters(facts.kind), pen);
    next_trimmed(encoding, &facts.number, pen);
}

/// Adds the cells of an answer.
fn csv_answer<W: Target>(
    encoding: Encoding,
    files: &[AnsweringFile],
    answer: &KeptAnswer,
    pen: &mut Pen<'_, W>,
)
    ensures { Adds W.contents W.failures (csv_answer encoding (answer_in files.now answer.now)) pen.old
        pen.new }
{
    next_trimmed(encoding, &spaced(&file_of(files, answer).sender), pen);
    next_characters(encoding, answer.status.code().as_bytes(), pen);
    next_characters(encoding, date(answer.processed).as_slice(), pen);
    next_trimmed(encoding, &answer.recipient, pen);
    next_characters(encoding, level(answer.level), pen);
}

/// Adds the cells of an answer, where there is one.
fn csv_answer_if<W: Target>(
    encoding: Encoding,
    files: &[AnsweringFile],
    answer: Option<&KeptAnswer>,
    pen: &mut Pen<'_, W>,
)
    ensures { Adds W.contents W.failures (csv_answer_if encoding
        (option_map (answer_in files.now) (option_map (λ a. a.now) answer.entry))) pen.old pen.new }
{
    match answer {
        Some(answer) => csv_answer(encoding, files, answer, pen),
        None => pen.text(b",,,,,"),
    }
}

/// Adds a member after others, unless it is blank.
fn member<W: Target>(encoding: Encoding, key: &[u8], cell: &[u8], pen: &mut Pen<'_, W>)
    ensures { Adds W.contents W.failures (member encoding key.now cell.now) pen.old pen.new }
{
    if cell.is_empty() {
        return;
    }
    pen.text(key);
    pen.text(b"\"");
    escaped_characters(encoding, cell, pen);
    pen.text(b"\"");
}

/// The same of a cell without trailing spaces.
fn member_trimmed<W: Target>(encoding: Encoding, key: &[u8], cell: &[u8], pen: &mut Pen<'_, W>)
    ensures { Adds W.contents W.failures (member encoding key.now (trimmed cell.now)) pen.old pen.new }
{
    member(encoding, key, trimmed(cell), pen);
}

/// Adds the members of what was sent.
fn json_sent<W: Target>(
    encoding: Encoding,
    group: u64,
    transaction: u64,
    facts: &SentFacts,
    pen: &mut Pen<'_, W>,
)
    ensures { Adds W.contents W.failures (json_sent encoding group transaction facts.now) pen.old pen.new }
{
    pen.text(b"\"group\":");
    pen.number(group);
    pen.text(b",\"transaction\":");
    pen.number(transaction);
    member(encoding, b",\"type\":", letters(facts.kind), pen);
    member_trimmed(encoding, b",\"submitter\":", &facts.number, pen);
}

/// Adds the members of an answer.
fn json_answer<W: Target>(
    encoding: Encoding,
    files: &[AnsweringFile],
    answer: &KeptAnswer,
    pen: &mut Pen<'_, W>,
)
    ensures { Adds W.contents W.failures (json_answer encoding (answer_in files.now answer.now)) pen.old
        pen.new }
{
    let sender = spaced(&file_of(files, answer).sender);
    let processed = date(answer.processed);
    member_trimmed(encoding, b",\"society\":", &sender, pen);
    member(
        encoding,
        b",\"status\":",
        answer.status.code().as_bytes(),
        pen,
    );
    member(encoding, b",\"processed\":", processed.as_slice(), pen);
    member_trimmed(encoding, b",\"recipient\":", &answer.recipient, pen);
    member(encoding, b",\"level\":", level(answer.level), pen);
}

/// Adds the members of an answer, where there is one.
fn json_answer_if<W: Target>(
    encoding: Encoding,
    files: &[AnsweringFile],
    answer: Option<&KeptAnswer>,
    pen: &mut Pen<'_, W>,
)
    ensures { Adds W.contents W.failures (json_answer_if encoding
        (option_map (answer_in files.now) (option_map (λ a. a.now) answer.entry))) pen.old pen.new }
{
    if let Some(answer) = answer {
        json_answer(encoding, files, answer, pen);
    }
}

/// Adds what stands after the name in a row of a table.
fn csv_rest<W: Target>(
    encoding: Encoding,
    front: &Front<'_>,
    files: &[AnsweringFile],
    answer: Option<&KeptAnswer>,
    pen: &mut Pen<'_, W>,
)
    ensures { Adds W.contents W.failures (csv_rest encoding (kept_row (shared_by front.now) files.now
        (option_map (λ a. a.now) answer.entry))) pen.old pen.new }
{
    csv_sent(encoding, front.group, front.transaction, &front.facts, pen);
    csv_answer_if(encoding, files, answer, pen);
    next_characters(encoding, state_by(answer).name().as_bytes(), pen);
    pen.text(b"\r\n");
}

/// Adds what stands after the name in an object.
fn json_rest<W: Target>(
    encoding: Encoding,
    front: &Front<'_>,
    files: &[AnsweringFile],
    answer: Option<&KeptAnswer>,
    pen: &mut Pen<'_, W>,
)
    ensures { Adds W.contents W.failures (json_rest encoding (kept_row (shared_by front.now) files.now
        (option_map (λ a. a.now) answer.entry))) pen.old pen.new }
{
    json_sent(encoding, front.group, front.transaction, &front.facts, pen);
    json_answer_if(encoding, files, answer, pen);
    member(
        encoding,
        b",\"state\":",
        state_by(answer).name().as_bytes(),
        pen,
    );
    pen.text(b"}\n");
}

/// Adds what stands after the name in a row.
fn rest_part<W: Target>(
    front: &Front<'_>,
    files: &[AnsweringFile],
    answer: Option<&KeptAnswer>,
    pen: &mut Pen<'_, W>,
)
    ensures { Adds W.contents W.failures (rest_part front.now.form (kept_row (shared_by front.now) files.now
        (option_map (λ a. a.now) answer.entry))) pen.old pen.new }
{
    match front.form {
        Form::Csv(encoding) => csv_rest(encoding, front, files, answer, pen),
        Form::Json(encoding) => json_rest(encoding, front, files, answer, pen),
    }
}

/// Adds the name of what was sent, and what stands before it.
fn name_part<W: Target>(form: Form, name: Option<&[u8]>, pen: &mut Pen<'_, W>)
    ensures { Adds W.contents W.failures (name_part form (option_map (λ n. n.now) name.entry)) pen.old
        pen.new }
{
    match (form, name) {
        (Form::Csv(_), Some(name)) => pen.text(name),
        (Form::Csv(_), None) => {}
        (Form::Json(_), Some(name)) => {
            pen.text(b"{\"sent\":");
            pen.text(name);
            pen.text(b",");
        }
        (Form::Json(_), None) => pen.text(b"{"),
    }
}

/// Adds the row of an answer, or of none.
pub(crate) fn row_text<W: Target>(
    front: &Front<'_>,
    files: &[AnsweringFile],
    answer: Option<&KeptAnswer>,
    pen: &mut Pen<'_, W>,
)
    ensures { Adds W.contents W.failures (kept_text (shared_by front.now) files.now
        (option_map (λ a. a.now) answer.entry)) pen.old pen.new }
{
    name_part(front.form, front.name, pen);
    rest_part(front, files, answer, pen);
}
