//! Devices by example.

use crate::checks::check_equal;
use cwr_devices::{Counted, DeviceFault, InMemory, ReadAhead, Source, Target};
use std::io;
use std::io::{ErrorKind, Read, Write};
use std::process::Abort;

/// Checks the bytes that are there, and consumes so many.
fn check_read<S: Source>(rt: &impl Abort, source: &mut S, wanted: &[u8], count: usize) {
    let bytes = source.fill().expect(rt, "no bytes");
    check_equal(rt, bytes, wanted);
    let count = count.min(bytes.len());
    source.consume(count);
}

/// Checks what a source over the bytes `HDR` shows while it is consumed.
fn check_reads<S: Source + Drop>(rt: &impl Abort, mut source: S) {
    check_read(rt, &mut source, b"HDR", 2);
    check_read(rt, &mut source, b"R", 1);
    check_read(rt, &mut source, b"", 0);
}

#[test]
fn reads_through(rt: HostRuntime) {
    check_reads(&rt, ReadAhead::new(b"HDR".as_slice()));
    check_reads(&rt, InMemory::new(b"HDR"));
}

/// Writes a text and hands it on: so both calls answer.
fn check_write<T: Target>(
    rt: &impl Abort,
    target: &mut T,
    text: &[u8],
    answers: (Result<usize, DeviceFault>, Result<(), DeviceFault>),
) {
    let answered = (target.write(text), target.flush());
    check_equal(rt, answered, answers);
}

#[test]
fn writes_through(rt: HostRuntime) {
    let mut target = Counted::new(Vec::new(rt.alloc()));
    check_write(&rt, &mut target, b"TRL", (Ok(3), Ok(())));
    check_equal(&rt, target.into_inner().as_slice(), b"TRL".as_slice());
}

/// A device that fails at each other call, and takes nothing.
#[derive(Drop)]
struct Broken {
    works: bool,
}

impl Read for Broken {
    fn read(&mut self, buffer: &mut [u8]) -> io::Result<usize> {
        self.works = !self.works;
        if !self.works {
            return Err(io::Error::from(ErrorKind::Other));
        }
        match buffer {
            [first, ..] => {
                *first = b'A';
                Ok(1)
            }
            [] => Ok(0),
        }
    }
}

impl Write for Broken {
    fn write(&mut self, _text: &[u8]) -> io::Result<usize> {
        Ok(0)
    }

    fn flush(&mut self) -> io::Result<()> {
        Err(io::Error::from(ErrorKind::Other))
    }
}

#[test]
fn readers_fail(rt: HostRuntime) {
    let mut source = ReadAhead::new(Broken { works: false });
    check_read(&rt, &mut source, b"A", 1);
    check_equal(&rt, source.fill(), Err(DeviceFault));
    check_read(&rt, &mut source, b"A", 0);
}

#[test]
fn writers_fail(rt: HostRuntime) {
    let mut target = Counted::new(Broken { works: true });
    check_write(&rt, &mut target, b"A", (Err(DeviceFault), Err(DeviceFault)));
    check_write(&rt, &mut target, b"", (Ok(0), Err(DeviceFault)));
}

/// A device that fails at one of its calls, and else takes all, or gives the number of the call.
#[derive(Drop)]
struct FailsOnce {
    calls: u8,
    flushes: u8,
    /// The number of the call that fails, from 1.
    at: u8,
}

impl FailsOnce {
    /// A device that wasn't called, and fails at the call of that number.
    fn new(at: u8) -> FailsOnce {
        FailsOnce {
            calls: 0,
            flushes: 0,
            at,
        }
    }

    /// Counts a call, and fails where that is the one.
    fn call(&mut self) -> io::Result<u8> {
        self.calls = self.calls.saturating_add(1);
        if self.calls == self.at {
            return Err(io::Error::from(ErrorKind::Interrupted));
        }
        Ok(self.calls)
    }
}

impl Read for FailsOnce {
    fn read(&mut self, buffer: &mut [u8]) -> io::Result<usize> {
        let number = self.call()?;
        match buffer {
            [first, ..] => {
                *first = number;
                Ok(1)
            }
            [] => Ok(0),
        }
    }
}

impl Write for FailsOnce {
    fn write(&mut self, text: &[u8]) -> io::Result<usize> {
        match self.call() {
            Ok(_) => Ok(text.len()),
            Err(fault) => Err(fault),
        }
    }

    fn flush(&mut self) -> io::Result<()> {
        self.flushes = self.flushes.saturating_add(1);
        match self.call() {
            Ok(_) => Ok(()),
            Err(fault) => Err(fault),
        }
    }
}

/// The byte that a source gives, which is consumed.
fn next_byte<S: Source>(source: &mut S) -> Option<u8> {
    let byte = source.fill().ok()?.first().copied()?;
    source.consume(1);
    Some(byte)
}

/// Takes three bytes of a reader that fails at the call of that number: these come, one failure is counted, and each fill was one read.
fn check_failed_read(rt: &impl Abort, at: u8, wanted: [Option<u8>; 3]) {
    let mut source = ReadAhead::new(FailsOnce::new(at));
    let given = [
        next_byte(&mut source),
        next_byte(&mut source),
        next_byte(&mut source),
    ];
    let failures = source.failures();
    let calls = source.into_inner().calls;
    check_equal(rt, (given, failures, calls), (wanted, 1, 3));
}

#[test]
fn one_failed_read_is_one_fault(rt: HostRuntime) {
    check_failed_read(&rt, 1, [None, Some(2), Some(3)]);
    check_failed_read(&rt, 2, [Some(1), None, Some(3)]);
    check_failed_read(&rt, 3, [Some(1), Some(2), None]);
}

/// Writes and hands on twice, to a writer that fails at the call of that number: so it is answered, one failure is counted, and each call
/// reached the writer once.
fn check_failed_write(rt: &impl Abort, at: u8, wanted: [bool; 4]) {
    let mut target = Counted::new(FailsOnce::new(at));
    let answers = [
        target.write(b"A").is_ok(),
        target.flush().is_ok(),
        target.write(b"B").is_ok(),
        target.flush().is_ok(),
    ];
    let failures = target.failures();
    let device = target.into_inner();
    let reached = (device.calls, device.flushes);
    check_equal(rt, (answers, failures, reached), (wanted, 1, (4, 2)));
}

#[test]
fn one_failed_write_is_one_fault(rt: HostRuntime) {
    check_failed_write(&rt, 1, [false, true, true, true]);
    check_failed_write(&rt, 2, [true, false, true, true]);
    check_failed_write(&rt, 3, [true, true, false, true]);
    check_failed_write(&rt, 4, [true, true, true, false]);
}
