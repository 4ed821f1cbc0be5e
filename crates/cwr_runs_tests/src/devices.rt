//! A reader and a writer of the tests, which fail at some place.

ghost use Rattle.std.specs.Prelude.{Some};

use std::io::{self, ErrorKind, Read, Write};

/// A reader that gives a hundred bytes at most, and fails after so many reads.
#[derive(Drop)]
pub(crate) struct FailsAfter<'a> {
    pub(crate) left: &'a [u8],
    pub(crate) reads: usize,
}

impl Read for FailsAfter<'_> {
    fn read(&mut self, buf: &mut [u8]) -> io::Result<usize> {
        if self.reads == 0 {
            return Err(io::Error::from(ErrorKind::Other));
        }
        self.reads -= 1;
        let count = buf.len().min(100);
        self.left.read(&mut buf[..count])
    }
}

/// A writer to memory that takes so many bytes in all.
#[derive(Drop)]
pub(crate) struct Bounded {
    pub(crate) text: Vec<u8>,
    pub(crate) room: usize,
}

impl Write for Bounded {
    ghost contents = { λ bounded. Some bounded.text.items };

    fn write(&mut self, text: &[u8]) -> io::Result<usize> {
        let left = self.room.saturating_sub(self.text.len());
        let taken = left.min(text.len());
        self.text.extend_from_slice(&text[..taken])?;
        Ok(taken)
    }

    fn flush(&mut self) -> io::Result<()> {
        Ok(())
    }
}
