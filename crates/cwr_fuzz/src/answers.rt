//! What the library answers on a text.

use crate::devices::{Nowhere, Pieces, Shelf};
use cwr_decode::{ReadFault, read_all};
use cwr_devices::Counted;
use cwr_encode::encode;
use cwr_parts::{join, split};
use cwr_shape::Limits;
use cwr_tools::{JoinReport, SplitReport, ToolFault, Verdict, check, show};
use std::alloc::{AllocError, AllocFailed, Global};

/// What is wrong with an answer, or that there was no memory to ask for it.
#[derive(Clone, Copy, Debug, PartialEq, Eq)]
pub enum Wrong {
    /// There was no memory.
    Memory,
    /// What isn't so.
    Law(&'static str),
}

impl From<AllocError> for Wrong {
    fn from(_fault: AllocError) -> Wrong {
        Wrong::Memory
    }
}

impl<T: Drop> From<AllocFailed<T>> for Wrong {
    fn from(_fault: AllocFailed<T>) -> Wrong {
        Wrong::Memory
    }
}

/// That something isn't so.
pub fn unless(holds: bool, law: &'static str) -> Result<(), Wrong> {
    if holds { Ok(()) } else { Err(Wrong::Law(law)) }
}

/// A fault where no device fails.
fn fault_of(fault: ToolFault, law: &'static str) -> Wrong {
    match fault {
        ToolFault::Memory => Wrong::Memory,
        _ => Wrong::Law(law),
    }
}

/// A text in one piece.
pub const WHOLE: &[usize] = &[usize::MAX];

/// The verdict on a text.
pub fn verdict(alloc: Global, limits: Limits, text: &[u8]) -> Result<Verdict, Wrong> {
    let mut reader = Pieces::new(text, WHOLE);
    let (_, outcome) = check(alloc, limits, &mut reader, Counted::new(Nowhere));
    outcome.map_err(|fault| fault_of(fault, "a fault of a check without a failing device"))
}

/// What a check and a show answer on a text.
#[derive(Debug, Drop)]
pub struct Said {
    /// What the check has written, and after it what the show has.
    pub text: Vec<u8>,
    /// The verdict of the check.
    pub checked: Verdict,
    /// The verdict of the show.
    pub shown: Verdict,
}

/// What a check writes of a text in pieces of these sizes, and its verdict.
fn checked(
    alloc: Global,
    limits: Limits,
    text: &[u8],
    sizes: &[usize],
) -> Result<(Vec<u8>, Verdict), Wrong> {
    let mut reader = Pieces::new(text, sizes);
    let (writer, outcome) = check(alloc, limits, &mut reader, Counted::new(Vec::new(alloc)));
    match outcome {
        Ok(verdict) => Ok((writer.into_inner(), verdict)),
        Err(fault) => Err(fault_of(fault, "a fault of a check")),
    }
}

/// What a show writes of a text in pieces of these sizes, and its verdict.
fn shown(
    alloc: Global,
    limits: Limits,
    text: &[u8],
    sizes: &[usize],
) -> Result<(Vec<u8>, Verdict), Wrong> {
    let mut reader = Pieces::new(text, sizes);
    let (writer, outcome) = show(alloc, limits, &mut reader, Counted::new(Vec::new(alloc)));
    match outcome {
        Ok(verdict) => Ok((writer.into_inner(), verdict)),
        Err(fault) => Err(fault_of(fault, "a fault of a show")),
    }
}

/// What a check and a show answer on a text in pieces of these sizes.
pub fn report(alloc: Global, limits: Limits, text: &[u8], sizes: &[usize]) -> Result<Said, Wrong> {
    let (mut written, checked) = checked(alloc, limits, text, sizes)?;
    let (more, shown) = shown(alloc, limits, text, sizes)?;
    written.extend_from_slice(more.as_slice())?;
    Ok(Said {
        text: written,
        checked,
        shown,
    })
}

/// The canonical text of the transmission with which a text begins.
pub fn canonical(alloc: Global, limits: Limits, text: &[u8]) -> Result<Vec<u8>, Wrong> {
    let mut reader = Pieces::new(text, WHOLE);
    let transmission = match read_all(alloc, limits, &mut reader) {
        Ok(transmission) => transmission,
        Err(ReadFault::Memory) => return Err(Wrong::Memory),
        Err(_) => return Err(Wrong::Law("what is good isn't read")),
    };
    let (writer, outcome) = encode(&transmission, limits, Counted::new(Vec::new(alloc)));
    let written = writer.into_inner();
    unless(
        outcome == Ok(written.len() as u64),
        "what was read isn't written",
    )?;
    Ok(written)
}

/// The join of some texts.
pub fn joined(
    alloc: Global,
    limits: Limits,
    texts: &[&[u8]],
) -> Result<(Vec<u8>, JoinReport), Wrong> {
    let mut readers = Vec::new(alloc);
    for text in texts {
        readers.push(Pieces::new(text, WHOLE))?;
    }
    if readers.is_empty() {
        return Err(Wrong::Law("no text to join"));
    }
    let writer = Counted::new(Vec::new(alloc));
    let (writer, outcome) = join(alloc, limits, readers.as_mut_slice(), writer);
    match outcome {
        Ok(report) => Ok((writer.into_inner(), report)),
        Err(stopped) => Err(fault_of(stopped.fault, "what is good isn't joined")),
    }
}

/// The parts of a text, of so many transactions each.
pub fn parts(
    alloc: Global,
    limits: Limits,
    text: &[u8],
    transactions: u32,
) -> Result<(Shelf, SplitReport), Wrong> {
    let mut reader = Pieces::new(text, WHOLE);
    let mut shelf = Shelf::new(alloc);
    match split(alloc, limits, &mut reader, transactions.max(1), &mut shelf) {
        Ok(report) => Ok((shelf, report)),
        Err(fault) => Err(fault_of(fault, "what is good isn't split")),
    }
}
