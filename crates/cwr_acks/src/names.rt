//! The names of files as they are told.

ghost use Rattle.std.specs.Prelude.{◌≡◌, IfOk, option_map};
ghost use Rattle.json.specs.Print.{quoted};
ghost use Rattle.cwr_devices.specs.Steps.Pens.{Adds};
ghost use Rattle.cwr_acks.specs.Format.AckLines.{name_of_notes, name_of_outcome, shown_name, telling_of};
ghost use Rattle.cwr_acks.specs.Format.AckTexts.{name_before, sent_part};
ghost use Rattle.cwr_acks.specs.Steps.DataTexts.{name_member};

use crate::forms::{Form, Manner};
use cwr_delivery::{Notes, Outcome};
use cwr_devices::{Pen, Target};
use json::Writer;
use std::alloc::{AllocError, Global};

/// A name between quotes, as it stands in JSON.
fn quoted_name(alloc: Global, name: &str) -> Result<Vec<u8>, AllocError>
    ensures { IfOk result (λ shown. shown.items ≡ quoted name.now) }
{
    let mut writer = Writer::new(Vec::new(alloc));
    writer.string(name)?;
    Ok(writer.into_inner())
}

/// The name of a file as it is told in that form: between quotes in JSON.
pub fn shown_name(alloc: Global, form: Form, name: &str) -> Result<Vec<u8>, AllocError>
    ensures { IfOk result (λ shown. shown.items ≡ shown_name form name.now) }
{
    match form {
        Form::Words(_) => name.as_bytes().to_vec(alloc),
        Form::Json(_) => quoted_name(alloc, name),
    }
}

/// The name of what an acknowledgement with that outcome answers.
fn name_of_outcome<'a>(manner: &Manner<'a>, outcome: &Outcome) -> Option<&'a [u8]>
    ensures { option_map (λ n. n.now) result
        ≡ name_of_outcome (telling_of manner.now).names outcome.now }
{
    match outcome {
        Outcome::Answers { sent, .. } => manner.name(*sent),
        _ => None,
    }
}

/// The name of what an acknowledgement answers, where that is told.
pub(crate) fn name_of_notes<'a>(manner: &Manner<'a>, notes: &Option<Notes>) -> Option<&'a [u8]>
    ensures { option_map (λ n. n.now) result
        ≡ name_of_notes (telling_of manner.now).names notes.now }
{
    match notes {
        Some(notes) => name_of_outcome(manner, &notes.outcome),
        None => None,
    }
}

/// Adds the name of what an acknowledgement answers.
pub(crate) fn sent_part<W: Target>(name: Option<&[u8]>, pen: &mut Pen<'_, W>)
    ensures { Adds W.contents W.failures (sent_part (option_map (λ n. n.now) name.entry)) pen.old
        pen.new }
{
    match name {
        Some(name) => {
            pen.text(b" sent ");
            pen.text(name);
        }
        None => {}
    }
}

/// Adds the name of what was sent before a line.
pub(crate) fn name_before<W: Target>(name: Option<&[u8]>, pen: &mut Pen<'_, W>)
    ensures { Adds W.contents W.failures (name_before (option_map (λ n. n.now) name.entry)) pen.old
        pen.new }
{
    match name {
        Some(name) => {
            pen.text(name);
            pen.text(b": ");
        }
        None => {}
    }
}

/// Adds a name after its key, and a comma.
pub(crate) fn name_member<W: Target>(key: &[u8], name: Option<&[u8]>, pen: &mut Pen<'_, W>)
    ensures { Adds W.contents W.failures (name_member key.now (option_map (λ n. n.now) name.entry))
        pen.old pen.new }
{
    match name {
        Some(name) => {
            pen.text(key);
            pen.text(name);
            pen.text(b",");
        }
        None => {}
    }
}
