//! Some transactions of a text in memory, as a transmission of their own.

ghost use Rattle.std.specs.Prelude.{◌≡◌, IfOk, IsPermutation};
ghost use Rattle.cwr_calls.specs.Format.Selected.{in_c_of, places_in};
ghost use Rattle.cwr_calls.specs.Steps.Selecting.{SelectsText};

use crate::verdicts::{CwrVerdict, ended, in_c};
use cwr_devices::{Counted, InMemory};
use cwr_select::{ByPlace, Changes, Listed, SelectReport, select};
use cwr_shape::Limits;
use cwr_tools::{ToolFault, Verdict};
use std::alloc::{AllocError, Global};

/// The place of a transaction.
#[repr(C)]
#[derive(Clone, Copy, Debug, PartialEq, Eq)]
pub struct CwrPlace {
    /// The place of its group, from 1.
    pub group: u32,
    /// Its own in that group, from 0.
    pub transaction: u32,
}

/// The places, as transactions are chosen by them.
pub(crate) fn listed(alloc: Global, places: &[CwrPlace]) -> Result<Listed<(u32, u32)>, AllocError>
    ensures { IfOk result (λ l. IsPermutation (places_in places.now) l) }
{
    let mut values = Vec::new(alloc);
    for place in places {
        values.push((place.group, place.transaction))?;
    }
    Ok(Listed::new(values))
}

/// The canonical text of the transactions of the text that have these places.
pub(crate) fn select_text(
    alloc: Global,
    limits: Limits,
    places: &Listed<(u32, u32)>,
    text: &[u8],
) -> (Vec<u8>, Result<SelectReport, ToolFault>)
    ensures { SelectsText limits text.now places.now result.0.items result.1 }
{
    let mut reader = InMemory::new(text);
    let writer = Counted::new(Vec::new(alloc));
    let unchanged = Changes {
        created: None,
        works: None,
    };
    let (writer, outcome) = select(
        alloc,
        limits,
        &mut reader,
        unchanged,
        &ByPlace(places),
        writer,
    );
    (writer.into_inner(), outcome)
}

/// What came of a selection, in numbers.
pub(crate) fn selected_in_c(outcome: Result<SelectReport, ToolFault>) -> CwrVerdict
    ensures { result ≡ in_c_of outcome }
{
    match outcome {
        Ok(report) => CwrVerdict {
            transactions: report.selected,
            ..ended(0)
        },
        Err(ToolFault::Refused(refusal)) => in_c(Verdict::Refused(refusal)),
        Err(ToolFault::Truncated { records }) => in_c(Verdict::Truncated { records }),
        Err(
            ToolFault::Reader
            | ToolFault::Writer { .. }
            | ToolFault::Output
            | ToolFault::Limit(_)
            | ToolFault::Memory,
        ) => ended(3),
    }
}
