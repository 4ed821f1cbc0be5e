//! Readers and writers of the tests, some of which fail.

ghost use Rattle.std.specs.Prelude.{Some};

use cwr_devices::{Counted, ReadAhead};
use std::alloc::Global;
use std::io::{self, ErrorKind, Read, Write};

/// A reader that gives a hundred bytes at most, and fails after so many reads.
#[derive(Drop)]
pub(crate) struct FailsAfter<'a> {
    left: &'a [u8],
    reads: usize,
}

impl Read for FailsAfter<'_> {
    fn read(&mut self, buf: &mut [u8]) -> io::Result<usize> {
        if self.reads == 0 {
            return Err(io::Error::from(ErrorKind::Other));
        }
        self.reads -= 1;
        let count = buf.len().min(100);
        self.left.read(&mut buf[..count])
    }
}

/// What the runs read.
pub(crate) type Reader<'a> = ReadAhead<FailsAfter<'a>>;

/// A reader of the text that fails after so many reads.
pub(crate) fn failing_after(left: &[u8], reads: usize) -> Reader<'_> {
    ReadAhead::new(FailsAfter { left, reads })
}

/// A reader of the text, which fails once all is read, or ends there.
pub(crate) fn reader_of(left: &[u8], fails: bool) -> Reader<'_> {
    let reads = if fails {
        left.len().div_ceil(100)
    } else {
        usize::MAX
    };
    failing_after(left, reads)
}

/// What a writer takes: at most so many bytes a call, and so many in all, after which it takes nothing.
#[derive(Clone, Copy)]
pub(crate) struct Width {
    pub(crate) at_once: usize,
    pub(crate) room: usize,
    /// It can't hand on what it has.
    pub(crate) stuck: bool,
}

/// A width that takes all that the tests write.
pub(crate) const WIDE: Width = Width {
    at_once: 9999,
    room: 9999,
    stuck: false,
};

/// The same, but it can't hand on what it has.
pub(crate) const STUCK: Width = Width {
    at_once: 9999,
    room: 9999,
    stuck: true,
};

/// A writer to memory.
#[derive(Drop)]
pub(crate) struct Bounded {
    pub(crate) text: Vec<u8>,
    pub(crate) width: Width,
}

impl Write for Bounded {
    ghost contents = { λ bounded. Some bounded.text.items };

    fn write(&mut self, text: &[u8]) -> io::Result<usize> {
        let left = self.width.room.saturating_sub(self.text.len());
        let taken = left.min(self.width.at_once).min(text.len());
        self.text.extend_from_slice(&text[..taken])?;
        Ok(taken)
    }

    fn flush(&mut self) -> io::Result<()> {
        if self.width.stuck {
            return Err(io::Error::from(ErrorKind::Other));
        }
        Ok(())
    }
}

/// A writer of this width.
pub(crate) fn writer_of(alloc: Global, width: Width) -> Counted<Bounded> {
    Counted::new(Bounded {
        text: Vec::new(alloc),
        width,
    })
}
