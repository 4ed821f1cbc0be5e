//! Why a run stopped before its end, and what the system says of it.

ghost use Rattle.std.specs.Prelude.{◌≡◌, true, false};
ghost use Rattle.cwr_files.specs.Format.Faults.{IsOfMemory};

use crate::fronts::CHARACTER_SET;
use crate::shown_names::Shown;
use std::fmt::{Display, Formatter};
use std::{fmt, io};
use thiserror::Error;

/// What standard input is called in messages.
pub const STANDARD_INPUT: &str = "standard input";

/// What a device is called in messages.
#[derive(Clone, Copy, Debug, PartialEq, Eq)]
pub enum Name<'a> {
    /// A file, by the name that the words gave.
    File(&'a str),
    /// What is read where no file is named.
    StandardInput,
    /// What lines are written to.
    StandardOutput,
    /// A part of a split: what the names of its parts begin with, and its number.
    Part(&'a str, u32),
}

// A control character in a name is shown as `?`, and an empty name as quotes.
impl Display for Name<'_> {
    fn fmt<W: fmt::Write>(&self, f: &mut Formatter<W>) -> fmt::Result {
        match self {
            Name::File("") => f.write_str("''"),
            Name::File(name) => Shown(name).fmt(f),
            Name::StandardInput => f.write_str(STANDARD_INPUT),
            Name::StandardOutput => f.write_str("standard output"),
            Name::Part(prefix, number) => write!(f, "{}{number:08}", Shown(prefix)),
        }
    }
}

/// Why a call of the system failed.
#[derive(Clone, Copy, Debug, PartialEq, Eq)]
pub struct Reason {
    kind: io::ErrorKind,
    /// The system's number, where it gave one.
    code: Option<i32>,
}

impl Reason {
    /// The reason that a call answered.
    pub fn of(fault: &io::Error) -> Reason {
        Reason {
            kind: fault.kind(),
            code: fault.raw_os_error(),
        }
    }

    /// The reason of that kind.
    pub fn kind(kind: io::ErrorKind) -> Reason
        ensures { result.kind ≡ kind }
    {
        Reason { kind, code: None }
    }

    /// Whether there was no memory.
    pub(crate) fn is_of_memory(&self) -> bool
        ensures memory { result ≡ true → IsOfMemory self.now }
        ensures other { result ≡ false → IsOfMemory self.now → ⊥ }
    {
        matches!(self.kind, io::ErrorKind::OutOfMemory)
    }
}

impl Display for Reason {
    fn fmt<W: fmt::Write>(&self, f: &mut Formatter<W>) -> fmt::Result {
        match self.code {
            Some(code) => write!(f, "{}", io::Error::from_raw_os_error(code)),
            None => write!(f, "{}", io::Error::from(self.kind)),
        }
    }
}

/// What is known of a device that failed.
#[derive(Clone, Copy, Debug, PartialEq, Eq)]
pub struct Told<'a> {
    /// What it is called.
    pub name: Name<'a>,
    /// How many bytes were read from it, or written to it, before.
    pub bytes: u64,
    /// Why it failed, where the system said so.
    pub reason: Option<Reason>,
    /// Of an input that begins with HDR, the cell in which that names its character set; else blank.
    pub character_set: [u8; CHARACTER_SET],
}

/// Why a run stopped before its end.
#[derive(Clone, Copy, Debug, PartialEq, Eq, Error)]
pub enum Fault<'a> {
    /// A file couldn't be opened.
    #[error("cannot open {0}")]
    Open(Name<'a>, Option<Reason>),
    /// An input failed.
    #[error("read fault")]
    Read(Told<'a>),
    /// Standard output, or the file that is written, failed.
    #[error("write fault")]
    Write(Told<'a>),
    /// A file of outputs couldn't be made or finished.
    #[error("output fault")]
    Output(Name<'a>, Option<Reason>),
    /// What was to be written is an input.
    #[error("{0} is an input")]
    IsInput(Name<'a>),
    /// What was to be written is there already, and may not be replaced.
    #[error("{0} is there already")]
    IsThere(Name<'a>),
    /// What is there once was to be read twice.
    #[error("{0} can't be read twice")]
    IsTwice(Name<'a>),
    /// An input has another sender than the first one, and may not.
    #[error("{0} has another sender than the first transmission")]
    IsOther(Name<'a>),
    /// A part of a split would be created after the day of the first one.
    #[error("the day ends before {0} is created")]
    IsLate(Name<'a>),
    /// There was no memory.
    #[error("out of memory")]
    Memory,
}

impl Fault<'_> {
    /// Whether nobody reads what is written to standard output any more.
    pub fn is_closed_pipe(&self) -> bool {
        match self {
            Fault::Write(
                Told {
                    name: Name::StandardOutput,
                    reason: Some(reason),
                    ..
                },
            ) => reason.kind == io::ErrorKind::BrokenPipe,
            _ => false,
        }
    }
}

/// Puts what is known of a device: its name, why it failed, and how many bytes there were before.
fn put_device<E: io::Write>(
    error: &mut E,
    name: Name<'_>,
    reason: Option<Reason>,
    bytes: Option<u64>,
) -> io::Result<()> {
    write!(error, "cwr: {name}")?;
    if let Some(reason) = reason {
        write!(error, ": {reason}")?;
    }
    match bytes {
        Some(1) => writeln!(error, ", after 1 byte"),
        Some(bytes) => writeln!(error, ", after {bytes} bytes"),
        None => writeln!(error),
    }
}

/// Puts the line of a fault, and what is known of its device on a second one.
fn put_lines<E: io::Write>(error: &mut E, fault: &Fault<'_>) -> io::Result<()> {
    writeln!(error, "cwr: {fault}")?;
    match fault {
        Fault::Read(told) | Fault::Write(told) => put_device(
            error,
            told.name,
            told.reason,
            Some(told.bytes),
        ),
        Fault::Open(name, Some(reason)) | Fault::Output(name, Some(reason)) => {
            put_device(error, *name, Some(*reason), None)
        }
        Fault::Output(name, None) => put_device(error, *name, None, None),
        Fault::Open(_, None)
        | Fault::IsInput(_)
        | Fault::IsThere(_)
        | Fault::IsTwice(_)
        | Fault::IsOther(_)
        | Fault::IsLate(_)
        | Fault::Memory => Ok(()),
    }
}

/// Tells of a fault on standard error. A pipe that nobody reads any more is passed over, and what standard error doesn't take is
/// lost.
pub fn tell_fault<E: io::Write>(error: &mut E, fault: &Fault<'_>) {
    if !fault.is_closed_pipe() {
        let _ = put_lines(error, fault);
    }
}
