//! A store whose files are known.

ghost use Rattle.std.specs.Prelude.{◌≡◌, ℕ, List, ◌∷◌, IfOk, OnErr, OnOk, None, Some, option_map};
ghost use Rattle.cwr_files.specs.Format.Files.{Texts, counted_on, put};
ghost use Rattle.cwr_files.specs.Steps.MemoryStores.{entered, entries_say, held_in, making_in};

use crate::faults::Reason;
use crate::stores::{Found, Store, Unmade, count_failure};
use cwr_devices::ReadAhead;
use std::alloc::{AllocError, Global};
use std::io;
use std::io::Cursor;

/// What became of a name.
#[derive(Drop)]
enum Entry {
    /// That lies under it, or nothing.
    Is(String, Option<Vec<u8>>),
    /// What lay under the first name lies under the second.
    Moved(String, String, Vec<u8>),
}

/// Files in memory: what became of their names, the latest first.
#[derive(Drop)]
pub struct MemoryStore {
    alloc: Global,
    entries: Vec<Entry>,
    making: Option<String>,
    failures: u64,
}

/// What lies under the name.
fn find<'a>(entries: &'a [Entry], name: &str) -> Option<&'a [u8]>
    ensures { option_map (λ bytes. bytes.now) result ≡ entries_say entries.now name.now }
{
    for entry in entries {
        match entry {
            Entry::Is(is, text) => {
                if name == is.as_str() {
                    return match text {
                        Some(text) => Some(text.as_slice()),
                        None => None,
                    };
                }
            }
            Entry::Moved(from, to, text) => {
                if name == to.as_str() {
                    return Some(text.as_slice());
                }
                if name == from.as_str() {
                    return None;
                }
            }
        }
    }
    None
}

/// Puts an entry before the others.
fn enter(entries: &mut Vec<Entry>, entry: Entry) -> Result<(), AllocError>
    ensures entered { OnOk result (entries.new.items ≡ entry ∷ entries.old.items) }
    ensures kept { OnErr result (entries.new.items ≡ entries.old.items) }
{
    match entries.insert(0, entry) {
        Ok(()) => Ok(()),
        Err(_) => Err(AllocError),
    }
}

/// Counts a call that failed since there was no memory.
fn count_memory(failures: &mut u64) -> Reason
    ensures { failures.new ≡ counted_on 1 failures.old }
{
    count_failure(failures, Reason::kind(io::ErrorKind::OutOfMemory))
}

/// What is entered of a file that has another name.
fn moved(alloc: Global, from: &str, to: &str, text: &[u8]) -> Result<Entry, AllocError>
    ensures { IfOk result (λ entry. (texts : Texts) (n : List ℕ)
        → entered entry texts n ≡ put to.now (Some text.now) (put from.now None texts) n) }
{
    Ok(Entry::Moved(
        from.to_string(alloc)?,
        to.to_string(alloc)?,
        text.to_vec(alloc)?,
    ))
}

impl MemoryStore {
    /// A store that holds nothing.
    pub fn new(alloc: Global) -> MemoryStore
        ensures { making_in result ≡ None }
    {
        MemoryStore {
            alloc,
            entries: Vec::new(alloc),
            making: None,
            failures: 0,
        }
    }

    /// Puts a text under a name.
    pub fn hold(&mut self, name: &str, text: &[u8]) -> Result<(), AllocError>
        ensures { making_in self.new ≡ making_in self.old }
    {
        let name = name.to_string(self.alloc)?;
        let text = text.to_vec(self.alloc)?;
        enter(&mut self.entries, Entry::Is(name, Some(text)))
    }

    /// What lies under a name.
    pub fn text(&self, name: &str) -> Option<&[u8]>
        ensures { option_map (λ bytes. bytes.now) result
            ≡ entries_say self.now.entries.items name.now }
    {
        find(self.entries.as_slice(), name)
    }
}

impl Store for MemoryStore {
    type Reader = Cursor<Vec<u8>>;

    type Writer = Vec<u8>;

    ghost held = { held_in };

    ghost making = { making_in };

    ghost failures = { λ store. store.failures };

    fn open(&mut self, name: &str) -> Result<Cursor<Vec<u8>>, Reason> {
        let Some(text) = find(self.entries.as_slice(), name) else {
            let reason = Reason::kind(io::ErrorKind::NotFound);
            return Err(count_failure(&mut self.failures, reason));
        };
        match text.to_vec(self.alloc) {
            Ok(copy) => Ok(Cursor::new(copy)),
            Err(_) => Err(count_memory(&mut self.failures)),
        }
    }

    fn end<R>(&mut self, reader: ReadAhead<R>) -> R {
        self.failures = self.failures.saturating_add(reader.failures());
        reader.into_inner()
    }

    fn size(&mut self, name: &str) -> Option<u64> {
        find(self.entries.as_slice(), name).map(|text| text.len() as u64)
    }

    fn are_one(&mut self, name: &str, other: &str) -> bool {
        find(self.entries.as_slice(), name).is_some() && name == other
    }

    fn part_that_is(
        &mut self,
        _alloc: Global,
        _name: &str,
        _prefix: &str,
    ) -> Result<Option<u32>, AllocError> {
        Ok(None)
    }

    fn look(&mut self, name: &str) -> Result<Found, Reason> {
        match find(self.entries.as_slice(), name) {
            Some(_) => Ok(Found::File),
            None => Ok(Found::Nothing),
        }
    }

    fn create_new(&mut self, name: &str) -> Result<Vec<u8>, Unmade> {
        if find(self.entries.as_slice(), name).is_some() {
            return Err(Unmade::IsThere);
        }
        match name.to_string(self.alloc) {
            Ok(name) => {
                self.making = Some(name);
                Ok(Vec::new(self.alloc))
            }
            Err(_) => Err(Unmade::Failed(count_memory(&mut self.failures))),
        }
    }

    fn create(&mut self, name: &str) -> Result<Vec<u8>, Reason> {
        match name.to_string(self.alloc) {
            Ok(name) => {
                self.making = Some(name);
                Ok(Vec::new(self.alloc))
            }
            Err(_) => Err(count_memory(&mut self.failures)),
        }
    }

    fn close(&mut self, writer: Vec<u8>) -> Result<(), Reason> {
        let Some(name) = self.making.take() else {
            return Ok(());
        };
        match enter(&mut self.entries, Entry::Is(name, Some(writer))) {
            Ok(()) => Ok(()),
            Err(_) => Err(count_memory(&mut self.failures)),
        }
    }

    fn give_up(&mut self, times: u64) {
        self.making = None;
        self.failures = self.failures.saturating_add(times);
    }

    fn rename(&mut self, from: &str, to: &str) -> Result<(), Reason> {
        let Some(text) = find(self.entries.as_slice(), from) else {
            let reason = Reason::kind(io::ErrorKind::NotFound);
            return Err(count_failure(&mut self.failures, reason));
        };
        let Ok(entry) = moved(self.alloc, from, to, text) else {
            return Err(count_memory(&mut self.failures));
        };
        match enter(&mut self.entries, entry) {
            Ok(()) => Ok(()),
            Err(_) => Err(count_memory(&mut self.failures)),
        }
    }

    fn remove(&mut self, name: &str) -> Result<(), Reason> {
        let Ok(name) = name.to_string(self.alloc) else {
            return Err(count_memory(&mut self.failures));
        };
        match enter(&mut self.entries, Entry::Is(name, None)) {
            Ok(()) => Ok(()),
            Err(_) => Err(count_memory(&mut self.failures)),
        }
    }
}
