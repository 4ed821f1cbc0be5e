//! Records with the cells of others.

ghost use Rattle.std.specs.Prelude.{◌≡◌};
ghost use Rattle.cwr_fields.specs.Format.Layouts.{layout};
ghost use Rattle.cwr_lines.specs.Format.Carried.{set_cell};
ghost use Rattle.cwr_lines.specs.Format.Records.{IsRecord, RecordValue};
ghost use Rattle.cwr_select.specs.Steps.Headers.{IsWholeCell};

use cwr_fields::{Kind, fields};
use cwr_lines::{Draft, RecordRef};

/// Sets a cell that is known to be one of its field.
pub(crate) fn put(draft: &mut Draft, j: u8, text: &[u8])
    requires { IsWholeCell draft.old.kind j text.now }
    ensures { draft.new ≡ set_cell j text.now draft.old }
{
    match draft.set(j, text) {
        Ok(()) => {}
        Err(_) => unreachable!(),
    }
}

/// All cells of a record, in a draft of a kind that has the same fields.
pub(crate) fn copied(kind: Kind, shown: &RecordRef<'_>) -> Draft
    requires { layout kind ≡ layout shown.now.kind }
    ensures copy { result ≡ record { kind = kind; cells = shown.now.cells } }
    ensures fits { IsRecord shown.now }
{
    let mut draft = Draft::blank(kind);
    for before in 0..fields(shown.kind()) {
        if let Some(text) = shown.cell(before + 1) {
            put(&mut draft, before + 1, text);
        }
    }
    draft
}
