//! The line that says whose a transaction is.

ghost use Rattle.std.specs.Prelude.{◌≡◌, ◌+◌, ◌≤◌, ◌++◌, [], length};
ghost use Rattle.cwr_fields.specs.Format.Bytes.{trimmed};
ghost use Rattle.cwr_notes.specs.Format.WorkNames.{name_label, name_line, name_words, work_line, work_of};

use arrayvec::ArrayVec;
use cwr_fields::{Kind, is_spaces, trimmed};
use cwr_findings::{is_of, work_number, work_title};
use cwr_lines::RecordRef;
use cwr_values::Transaction;
use std::marker::Model;

/// The most bytes of the line: what it says, a number, a space, a title, and the line's end.
pub(crate) const LONGEST_WORK: usize = 94;

/// The line, while it is put together.
type Text = ArrayVec<u8, LONGEST_WORK>;

/// Appends bytes for which there is room.
fn push(text: &mut Text, bytes: &[u8])
    requires { length text.old.items + length bytes.now ≤ LONGEST_WORK }
    ensures value { text.new.items ≡ text.old.items ++ bytes.now }
    ensures len { length text.new.items ≡ length text.old.items + length bytes.now }
{
    let _fits = text.try_extend_from_slice(bytes);
}

/// Appends a cell without its trailing spaces.
fn push_trimmed(text: &mut Text, cell: &[u8])
    requires { length text.old.items + length cell.now ≤ LONGEST_WORK }
    ensures value { text.new.items ≡ text.old.items ++ trimmed cell.now }
    ensures len { length text.new.items ≤ length text.old.items + length cell.now }
{
    push(text, trimmed(cell));
}

/// What the line says.
fn name_label(is_agreement: bool) -> &'static str
    ensures value { result.now ≡ name_label is_agreement }
    ensures short { length result.now ≤ 12 }
{
    match is_agreement {
        true => "  agreement ",
        false => "  work      ",
    }
}

/// Appends a number and a title, of which what is blank is left out.
fn push_name(text: &mut Text, number: &[u8], title: &[u8])
    requires { length text.old.items + length number.now + length title.now + 1 ≤ LONGEST_WORK }
    ensures value { text.new.items ≡ text.old.items ++ name_words number.now title.now }
    ensures len { length text.new.items
        ≤ length text.old.items + length number.now + length title.now + 1 }
{
    if is_spaces(number) {
        return push_trimmed(text, title);
    }
    push_trimmed(text, number);
    if is_spaces(title) {
        return;
    }
    push(text, b" ");
    push_trimmed(text, title);
}

/// Puts the line on a number and a title, if one isn't blank, into an empty text.
fn push_line(text: &mut Text, is_agreement: bool, number: &[u8], title: &[u8])
    requires empty { text.old.items ≡ [] }
    requires number { length number.now ≤ 20 }
    requires title { length title.now ≤ 60 }
    ensures { text.new.items ≡ name_line is_agreement number.now title.now }
{
    if is_spaces(number) && is_spaces(title) {
        return;
    }
    push(text, name_label(is_agreement).as_bytes());
    push_name(text, number, title);
    push(text, b"\n");
}

/// The line that says whose a transaction is, where its header does. It takes no memory.
#[derive(Drop)]
pub struct WorkLine {
    text: Text,
}

impl Model for WorkLine {
    ghost use Rattle.std.specs.Prelude.{ℕ, List};

    ghost Value = { List ℕ };

    ghost view = { λ l. l.text.items };
}

impl WorkLine {
    /// No line.
    pub fn none() -> WorkLine
        ensures { result ≡ [] }
    {
        WorkLine {
            text: ArrayVec::new(),
        }
    }

    /// That on an agreement or a work with that number and title. Where both are blank there is none.
    pub fn named(is_agreement: bool, number: &[u8], title: &[u8]) -> WorkLine
        requires number { length number.now ≤ 20 }
        requires title { length title.now ≤ 60 }
        ensures { result ≡ name_line is_agreement number.now title.now }
    {
        let mut line = WorkLine::none();
        push_line(&mut line.text, is_agreement, number, title);
        line
    }

    /// That of a transaction with that header.
    #[tactic(auto, unfolding(crate::specs::Format::WorkNames::work_line))]
    pub fn by(head: &RecordRef<'_>) -> WorkLine
        ensures { result ≡ work_line head.now }
    {
        WorkLine::named(is_of(head, Kind::Agr), work_number(head), work_title(head))
    }

    /// That of a transaction.
    pub fn of(transaction: &Transaction) -> WorkLine
        ensures { result ≡ work_of transaction.now }
    {
        match transaction.record(0) {
            Some(head) => WorkLine::by(&head),
            None => WorkLine::none(),
        }
    }

    /// The same line.
    pub fn copy(&self) -> WorkLine
        ensures { result ≡ self.now }
    {
        let mut line = WorkLine::none();
        push(&mut line.text, self.as_slice());
        line
    }

    /// Its bytes.
    pub fn as_slice(&self) -> &[u8]
        ensures value { result.now ≡ self.now }
        ensures short { length result.now ≤ LONGEST_WORK }
    {
        self.text.as_slice()
    }
}
