//! What is told below a refusal: which keys there are, how wide a field is, and what an item lacks.

ghost use Rattle.std.specs.Prelude.{◌≡◌, flat_map, option_map, unwrap_or};
ghost use Rattle.cwr_devices.specs.Steps.Pens.{Adds};
ghost use Rattle.cwr_devices.specs.Steps.Sinks.{PutsText};
ghost use Rattle.cwr_fields.specs.Format.Layouts.{field_at, layout};
ghost use Rattle.cwr_write.specs.Format.Lacks.{lack_after, lack_beside, lack_of, lack_told};
ghost use Rattle.cwr_write.specs.Format.OutcomeTexts.{carried_if, carried_key, character_text, hint_text, keys_text, lack_text, lack_words, width_text};

use crate::refusals::{Key, LineFault, Refusal, Why};
use cwr_devices::{Pen, Sink, SinkFault, Target};
use cwr_fields::{Kind, field, fields, letters};
use cwr_json::{Encoding, key_of};
use cwr_lines::RecordRef;
use cwr_values::{Item, Transaction};

/// What an item lacks.
#[derive(Clone, Copy, Debug)]
pub enum Lack {
    /// An agreement has no territory after it.
    Territory,
    /// The last territories have no party after them.
    Parties,
    /// The last territories have an acquirer after them, and no assignor.
    Assignor,
    /// The last territories have an assignor after them, and no acquirer.
    Acquirer,
    /// A work has no writer.
    Writer,
    /// A group has no transaction.
    Transaction,
    /// A transmission has no group.
    Group,
}

/// The words for what is lacking.
fn lack_words(lack: Lack) -> &'static [u8]
    ensures { result.now ≡ lack_words lack }
{
    match lack {
        Lack::Territory => b"a territory (TER) is missing, and its parties (IPA)",
        Lack::Parties => b"an assignor (IPA, agreement_role AS) and an acquirer (AC) are missing",
        Lack::Assignor => b"an assignor (IPA, agreement_role AS) is missing",
        Lack::Acquirer => b"an acquirer (IPA, agreement_role AC) is missing",
        Lack::Writer => b"a writer (SWR or OWR) is missing",
        Lack::Transaction => b"the group has no transaction",
        Lack::Group => b"the transmission has no group",
    }
}

/// What is missing beside a party of that role: the other one.
fn lack_beside(role: Option<&[u8]>) -> Lack
    ensures { result ≡ lack_beside (option_map (λ text. text.now) role.entry) }
{
    match role {
        Some(b"AS") => Lack::Acquirer,
        _ => Lack::Assignor,
    }
}

/// What records that end with that one lack, where it tells.
fn lack_after(last: &RecordRef<'_>) -> Option<Lack>
    ensures { result ≡ lack_after last.now.kind last.now }
{
    match last.kind() {
        Kind::Agr => Some(Lack::Territory),
        Kind::Ter => Some(Lack::Parties),
        Kind::Ipa => Some(lack_beside(last.cell(4))),
        Kind::Nwr | Kind::Rev | Kind::Spu | Kind::Opu | Kind::Spt => Some(Lack::Writer),
        _ => None,
    }
}

/// What records that end with that one lack, where those before it told that.
fn lack_with(before: Lack, last: &RecordRef<'_>) -> Lack
    ensures { result ≡ unwrap_or (lack_after last.now.kind last.now) before }
{
    match lack_after(last) {
        Some(lack) => lack,
        None => before,
    }
}

/// What a transaction that isn't whole lacks. Its last record that isn't carried as text tells.
fn lack_in(transaction: &Transaction) -> Lack
    ensures { result ≡ lack_told Lack.Writer transaction.now }
{
    let mut lack = Lack::Writer;
    for place in 0..transaction.len() {
        if let Some(record) = transaction.record(place) {
            lack = lack_with(lack, &record);
        }
    }
    lack
}

/// What an item lacks that is incomplete.
pub(crate) fn lack_of(item: &Item) -> Lack
    ensures { result ≡ lack_of item.now }
{
    match item {
        Item::Transaction(transaction) => lack_in(transaction),
        Item::GroupClosed(_) => Lack::Transaction,
        Item::Opened(_) | Item::GroupOpened(_) | Item::Ended => Lack::Group,
    }
}

/// Adds the key of field `j`, after a space, where the field isn't computed.
fn carried_if<W: Target>(kind: Kind, j: u8, pen: &mut Pen<'_, W>)
    ensures { Adds W.contents W.failures (carried_if (field_at kind j)) pen.old pen.new }
{
    let Some(place) = field(kind, j) else {
        return;
    };
    if place.derived {
        return;
    }
    pen.text(b" ");
    key_of(place.name.as_bytes(), pen);
}

/// Adds the keys of the fields of a kind that aren't computed, each after a space.
fn carried_keys<W: Target>(kind: Kind, pen: &mut Pen<'_, W>)
    ensures { Adds W.contents W.failures (flat_map carried_key (layout kind)) pen.old pen.new }
{
    for before in 0..fields(kind) {
        carried_if(kind, before + 1, pen);
    }
}

/// Adds the keys that a kind's records may have.
fn keys_text<W: Target>(kind: Kind, pen: &mut Pen<'_, W>)
    ensures { Adds W.contents W.failures (keys_text kind) pen.old pen.new }
{
    pen.text(b"  keys of ");
    pen.text(letters(kind));
    pen.text(b": record_type");
    carried_keys(kind, pen);
    pen.text(b"\n");
}

/// Adds the width of field `j`.
fn width_text<W: Target>(kind: Kind, j: u8, pen: &mut Pen<'_, W>)
    ensures { Adds W.contents W.failures (width_text kind j) pen.old pen.new }
{
    let Some(place) = field(kind, j) else {
        return;
    };
    pen.text(b"  ");
    key_of(place.name.as_bytes(), pen);
    pen.text(b" has at most ");
    pen.number(place.width as u64);
    pen.text(b" bytes\n");
}

/// Adds what is lacking.
fn lack_text<W: Target>(lack: Lack, pen: &mut Pen<'_, W>)
    ensures { Adds W.contents W.failures (lack_text lack) pen.old pen.new }
{
    pen.text(b"  ");
    pen.text(lack_words(lack));
    pen.text(b"\n");
}

/// The words for the characters that there may be.
fn character_words(encoding: Encoding) -> &'static [u8]
    ensures { result.now ≡ character_text encoding }
{
    match encoding {
        Encoding::Latin1 => b"  without --utf8 there are only the characters up to U+00FF\n",
        Encoding::Utf8 => {
            b"  beside U+F780 to U+F7FF, which are bytes, there are only the characters up to U+007F\n"
        }
    }
}

/// Adds the line that helps against a fault, if there is one.
fn hint_text<W: Target>(encoding: Encoding, fault: &LineFault, pen: &mut Pen<'_, W>)
    ensures { Adds W.contents W.failures (hint_text encoding fault.now) pen.old pen.new }
{
    match (&fault.why, fault.kind, &fault.key) {
        (Why::UnknownKey, Some(kind), _) => keys_text(kind, pen),
        (Why::UnknownKey, None, _) => pen.text(b"  keys of a line: records\n"),
        (Why::NotAByte, _, _) => pen.text(character_words(encoding)),
        (Why::TooWide, Some(kind), Key::Field(j)) => width_text(kind, *j, pen),
        (Why::Incomplete(lack), _, _) => lack_text(*lack, pen),
        _ => {}
    }
}

/// Puts a line that says more of a refusal: the keys that there are, where one is unknown; the width, where a text is wider; which
/// characters there may be, where another stands; what is missing, where an item is incomplete. It begins with two spaces. Of other
/// refusals it puts nothing.
pub fn put_hint<W: Target>(
    refusal: &Refusal,
    encoding: Encoding,
    sink: &mut Sink<W>,
) -> Result<(), SinkFault>
    ensures puts { PutsText W.contents W.failures (hint_text encoding refusal.now.fault) result sink.old sink.new }
{
    let mut pen = Pen::new(sink);
    hint_text(encoding, &refusal.fault, &mut pen);
    pen.end()
}
