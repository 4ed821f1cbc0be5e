//! The system's files.

ghost use Rattle.std.specs.Prelude.{None};

use crate::faults::Reason;
use crate::same_files::{identity_of, part_that_is, size_of};
use crate::stores::{Found, Store, Unmade, count_failure};
use cwr_devices::ReadAhead;
use std::alloc::{AllocError, Global};
use std::fs::File;
use std::io;
use std::rt::Files;

/// The system's files, of which nothing is known. Each method makes one call of the system. `close`, `end` and `give_up` make none: a
/// file is closed where it is dropped. `are_one` asks for both names, and `part_that_is` reads the folder.
#[derive(Drop)]
pub struct SystemStore<'r, R: Files> {
    rt: &'r R,
    failures: u64,
}

impl<'r, R: Files> SystemStore<'r, R> {
    /// The store, in which no call failed.
    pub fn new(rt: &'r R) -> SystemStore<'r, R> {
        SystemStore { rt, failures: 0 }
    }
}

impl<R: Files> Store for SystemStore<'_, R> {
    type Reader = R::File;

    type Writer = R::File;

    ghost held = { λ store. None };

    ghost making = { λ store. None };

    ghost failures = { λ store. store.failures };

    fn open(&mut self, name: &str) -> Result<R::File, Reason> {
        match File::open(self.rt, name) {
            Ok(file) => Ok(file),
            Err(fault) => Err(count_failure(&mut self.failures, Reason::of(&fault))),
        }
    }

    fn end<D>(&mut self, reader: ReadAhead<D>) -> D {
        self.failures = self.failures.saturating_add(reader.failures());
        reader.into_inner()
    }

    fn size(&mut self, name: &str) -> Option<u64> {
        size_of(self.rt, name)
    }

    fn are_one(&mut self, name: &str, other: &str) -> bool {
        match identity_of(self.rt, name) {
            Some(file) => identity_of(self.rt, other) == Some(file),
            None => false,
        }
    }

    fn part_that_is(
        &mut self,
        alloc: Global,
        name: &str,
        prefix: &str,
    ) -> Result<Option<u32>, AllocError> {
        match identity_of(self.rt, name) {
            Some(file) => part_that_is(self.rt, alloc, file, prefix),
            None => Ok(None),
        }
    }

    fn look(&mut self, name: &str) -> Result<Found, Reason> {
        match self.rt.symlink_metadata(name) {
            Ok(found) if found.is_file() => Ok(Found::File),
            Ok(_) => Ok(Found::Other),
            Err(fault) if fault.kind() == io::ErrorKind::NotFound => Ok(Found::Nothing),
            Err(fault) => Err(count_failure(&mut self.failures, Reason::of(&fault))),
        }
    }

    fn create_new(&mut self, name: &str) -> Result<R::File, Unmade> {
        match File::create_new(self.rt, name) {
            Ok(file) => Ok(file),
            Err(fault) if fault.kind() == io::ErrorKind::AlreadyExists => Err(Unmade::IsThere),
            Err(fault) => {
                let reason = count_failure(&mut self.failures, Reason::of(&fault));
                Err(Unmade::Failed(reason))
            }
        }
    }

    fn create(&mut self, name: &str) -> Result<R::File, Reason> {
        match File::create(self.rt, name) {
            Ok(file) => Ok(file),
            Err(fault) => Err(count_failure(&mut self.failures, Reason::of(&fault))),
        }
    }

    fn close(&mut self, _writer: R::File) -> Result<(), Reason> {
        Ok(())
    }

    fn give_up(&mut self, times: u64) {
        self.failures = self.failures.saturating_add(times);
    }

    fn rename(&mut self, from: &str, to: &str) -> Result<(), Reason> {
        match self.rt.rename(from, to) {
            Ok(()) => Ok(()),
            Err(fault) => Err(count_failure(&mut self.failures, Reason::of(&fault))),
        }
    }

    fn remove(&mut self, name: &str) -> Result<(), Reason> {
        match self.rt.remove_file(name) {
            Ok(()) => Ok(()),
            Err(fault) => Err(count_failure(&mut self.failures, Reason::of(&fault))),
        }
    }
}
