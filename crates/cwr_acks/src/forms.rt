//! The forms in which it is told what acknowledgements say, and the texts in each.

ghost use Rattle.std.specs.Prelude.{◌≡◌, option_map, slice_get, true};
ghost use Rattle.cwr_devices.specs.Steps.Pens.{Adds};
ghost use Rattle.cwr_delivery.specs.Format.Acknowledgements.{is_ack, is_message};
ghost use Rattle.cwr_acks.specs.Format.AckLines.{telling_of};
ghost use Rattle.cwr_acks.specs.Steps.AckSteps.{ack_in, message_as};

use crate::data_texts::{ack_members, message_part};
use crate::line_texts::{ack_text, message_line};
use cwr_delivery::Notes;
use cwr_devices::{Pen, Target};
use cwr_fields::{MessageLevel, TransactionStatus};
use cwr_json::Encoding;
use cwr_lines::RecordRef;

/// How cells stand in lines for people.
#[derive(Clone, Copy, Debug, PartialEq, Eq)]
pub enum Cells {
    /// Byte for byte.
    Bytes,
    /// In the characters that their bytes are shown as, in UTF-8.
    Characters(Encoding),
}

/// How it is told what acknowledgements say.
#[derive(Clone, Copy, Debug, PartialEq, Eq)]
pub enum Form {
    /// Lines for people: one for each acknowledgement, and one for each of its messages.
    Words(Cells),
    /// Lines of JSON: an object for each acknowledgement, with cells shown by the encoding.
    Json(Encoding),
}

/// How it is told what acknowledgements say: in what form, of which statuses, and under which names of files, each as `shown_name` has it.
#[derive(Clone, Copy, Debug)]
pub struct Manner<'a> {
    /// In what form.
    pub form: Form,
    /// Those with one of these statuses are told; without one all are.
    pub statuses: &'a [TransactionStatus],
    /// The name of their transmission's file, where there are several files; none where there is one.
    pub file: Option<&'a [u8]>,
    /// The names of the files of what was sent, where there are several; else none.
    pub names: &'a [Vec<u8>],
}

impl<'a> Manner<'a> {
    /// The name of transmission `i`, from 0, of what was sent, where that is told.
    pub(crate) fn name(&self, i: usize) -> Option<&'a [u8]>
        ensures { option_map (λ n. n.now) result ≡ slice_get (telling_of self.now).names i }
    {
        let name = self.names.get(i)?;
        Some(name.as_slice())
    }
}

/// Adds the text of an acknowledgement whose messages have that worst level, but for the names of files.
pub(crate) fn ack_in<W: Target>(
    form: Form,
    notes: &Option<Notes>,
    shown: &RecordRef<'_>,
    worst: Option<MessageLevel>,
    pen: &mut Pen<'_, W>,
)
    requires { is_ack shown.now ≡ true }
    ensures { Adds W.contents W.failures (ack_in form notes.now shown.now worst) pen.old pen.new }
{
    match form {
        Form::Words(cells) => ack_text(cells, shown, worst, pen),
        Form::Json(encoding) => ack_members(encoding, notes, shown, worst, pen),
    }
}

/// Adds the text of a message that comes after others of its acknowledgement, or is the first.
pub(crate) fn message_as<W: Target>(
    form: Form,
    later: bool,
    shown: &RecordRef<'_>,
    pen: &mut Pen<'_, W>,
)
    requires { is_message shown.now ≡ true }
    ensures { Adds W.contents W.failures (message_as form later shown.now) pen.old pen.new }
{
    match form {
        Form::Words(cells) => message_line(cells, shown, pen),
        Form::Json(encoding) => message_part(encoding, later, shown, pen),
    }
}
