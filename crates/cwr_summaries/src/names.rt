//! What inputs are called in rows.

ghost use Rattle.std.specs.Prelude.{◌≡◌, IfOk, string_bytes};
ghost use Rattle.cwr_summaries.specs.Format.Rows.{called, name_in};

use cwr_files::{DASH, shown_name};
use cwr_json::Encoding;
use cwr_summary_rows::Form;
use std::alloc::{AllocError, Global};

/// What the input that a word names is called.
fn called(word: &str) -> &str
    ensures { result.now ≡ called word.now }
{
    if word == DASH { "standard input" } else { word }
}

/// The name of an input as it is shown in that form.
pub(crate) fn name_in(alloc: Global, form: Form, word: &str) -> Result<Vec<u8>, AllocError>
    ensures { IfOk result (λ shown. shown.items ≡ name_in form word.now) }
{
    match form {
        Form::Words => Ok(shown_name(alloc, word)?.into_bytes()),
        Form::Names | Form::Csv => {
            let form = cwr_state_rows::Form::Csv(Encoding::Latin1);
            cwr_state_rows::shown_name(alloc, form, called(word))
        }
        Form::Json => {
            let form = cwr_state_rows::Form::Json(Encoding::Latin1);
            cwr_state_rows::shown_name(alloc, form, called(word))
        }
    }
}
