//! The forms in which rows are put, and names in each.

ghost use Rattle.std.specs.Prelude.{◌≡◌, ◌++◌, IfOk, OnOk, [], true};
ghost use Rattle.std.specs.List.{flat_map, list_any};
ghost use Rattle.json.specs.Print.{quoted};
ghost use Rattle.cwr_tables.specs.Format.Tables.{calls_for_quotes, cell_text, doubled};
ghost use Rattle.cwr_state_rows.specs.Format.RowTexts.{head_of, heading, shown_name};

use cwr_json::Encoding;
use json::Writer;
use std::alloc::{AllocError, Global};

/// How rows are put, with cells shown by the encoding.
#[derive(Clone, Copy, Debug, PartialEq, Eq)]
pub enum Form {
    /// A table as RFC 4180 has it, with a row of names before.
    Csv(Encoding),
    /// Lines of JSON: an object for each row.
    Json(Encoding),
}

/// Whether a byte calls for quotes around its cell.
pub(crate) fn calls_for_quotes(b: u8) -> bool
    ensures { result ≡ calls_for_quotes b }
{
    b == b',' || b == b'"' || b == b'\r' || b == b'\n'
}

/// Whether a byte of the cell calls for quotes.
pub(crate) fn needs_quotes(cell: &[u8]) -> bool
    ensures { result ≡ list_any calls_for_quotes cell.now }
{
    cell.iter().any(|b| calls_for_quotes(*b))
}

/// A byte as it stands between quotes.
pub(crate) fn doubled(b: &u8) -> &[u8]
    ensures { result.now ≡ doubled b.now }
{
    if *b == b'"' {
        b"\"\""
    } else {
        std::slice::from_ref(b)
    }
}

/// Appends bytes as they stand between quotes.
fn double(shown: &mut Vec<u8>, name: &[u8]) -> Result<(), AllocError>
    ensures { OnOk result (shown.new.items ≡ shown.old.items ++ flat_map doubled name.now) }
{
    for b in name {
        shown.extend_from_slice(doubled(b))?;
    }
    Ok(())
}

/// A name between quotes, as it stands in a table.
fn quoted_cell(alloc: Global, name: &[u8]) -> Result<Vec<u8>, AllocError>
    requires { list_any calls_for_quotes name.now ≡ true }
    ensures { IfOk result (λ shown. shown.items ≡ cell_text name.now) }
{
    let mut shown = Vec::new(alloc);
    shown.extend_from_slice(b"\"")?;
    double(&mut shown, name)?;
    shown.extend_from_slice(b"\"")?;
    Ok(shown)
}

/// A name as it stands in a table.
fn name_cell(alloc: Global, name: &[u8]) -> Result<Vec<u8>, AllocError>
    ensures { IfOk result (λ shown. shown.items ≡ cell_text name.now) }
{
    if needs_quotes(name) {
        quoted_cell(alloc, name)
    } else {
        Vec::from_slice(alloc, name)
    }
}

/// A name as it stands in JSON.
fn name_string(alloc: Global, name: &str) -> Result<Vec<u8>, AllocError>
    ensures { IfOk result (λ shown. shown.items ≡ quoted name.now) }
{
    let mut writer = Writer::new(Vec::new(alloc));
    writer.string(name)?;
    Ok(writer.into_inner())
}

/// The name of what was sent as it is shown in that form: with quotes where a table calls for them, or as a string of JSON.
pub fn shown_name(alloc: Global, form: Form, name: &str) -> Result<Vec<u8>, AllocError>
    ensures { IfOk result (λ shown. shown.items ≡ shown_name form name.now) }
{
    match form {
        Form::Csv(_) => name_cell(alloc, name.as_bytes()),
        Form::Json(_) => name_string(alloc, name),
    }
}

/// What stands before the rows.
pub(crate) fn head(form: Form) -> &'static [u8]
    ensures { result.now ≡ head_of form }
{
    match form {
        Form::Csv(_) => {
            b"sent,group,transaction,type,submitter,society,status,processed,recipient,level,state\r\n"
        }
        Form::Json(_) => b"",
    }
}
