//! Writers, limits and texts of the tests.

use cwr_devices::Counted;
use cwr_shape::Limits;
use cwr_worked::texts::canonical;
use std::io::{self, ErrorKind, Write};
use std::process::Abort;

/// The most records, groups and records of a transaction.
pub(crate) type Numbers = (u32, u32, u32);

/// The largest numbers of limits.
pub(crate) const LARGEST: Numbers = (99_999_999, 99_999, 999_999);

/// These limits.
pub(crate) fn limits_of(rt: &impl Abort, numbers: Numbers) -> Limits {
    Limits::new(numbers.0, numbers.1, numbers.2).expect(rt, "no limits")
}

/// What a writer takes: at most so many bytes a call, and so many in all. Once it is full it fails, or takes nothing.
#[derive(Clone, Copy, Debug)]
pub(crate) struct Width {
    pub(crate) at_once: usize,
    pub(crate) room: usize,
    pub(crate) fails: bool,
    /// It can't hand on what it has.
    pub(crate) stuck: bool,
}

/// A width that takes all that the tests write.
pub(crate) const WIDE: Width = Width {
    at_once: 4096,
    room: 9999,
    fails: true,
    stuck: false,
};

/// The same, one byte a call.
pub(crate) const ONE_BYTE: Width = Width {
    at_once: 1,
    room: 9999,
    fails: true,
    stuck: false,
};

/// A writer that keeps what it is given.
#[derive(Drop)]
pub(crate) struct Narrow {
    pub(crate) text: Vec<u8>,
    width: Width,
}

impl Write for Narrow {
    fn write(&mut self, text: &[u8]) -> io::Result<usize> {
        let left = self.width.room.saturating_sub(self.text.len());
        if left == 0 && self.width.fails {
            return Err(io::Error::from(ErrorKind::Other));
        }
        let count = text.len().min(self.width.at_once).min(left);
        match self.text.extend_from_slice(&text[..count]) {
            Ok(()) => Ok(count),
            Err(_) => Err(io::Error::from(ErrorKind::Other)),
        }
    }

    fn flush(&mut self) -> io::Result<()> {
        if self.width.stuck {
            return Err(io::Error::from(ErrorKind::Other));
        }
        Ok(())
    }
}

/// A writer over memory of this width.
pub(crate) fn narrow_writer(rt: &impl AllocGlobal, width: Width) -> Counted<Narrow> {
    Counted::new(Narrow {
        text: Vec::new(rt.alloc()),
        width,
    })
}

/// What a writer was given.
pub(crate) fn text_in(writer: Counted<Narrow>) -> Vec<u8> {
    writer.into_inner().text
}

/// The canonical text of lines.
pub(crate) fn text_of(rt: &(impl Abort + AllocGlobal), lines: &[&[u8]]) -> Vec<u8> {
    canonical(rt.alloc(), lines).expect(rt, "no memory")
}
