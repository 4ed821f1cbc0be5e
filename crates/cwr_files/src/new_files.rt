//! Files that are written, and that have their names only once they are whole.

ghost use Rattle.std.specs.Prelude.{◌≡◌, ◌+◌, ℕ, [], List, None, Some, true, IfOk, IfSome, IsSome, MatchResult, OnErr, OnOk, string_bytes};
ghost use Rattle.cwr_files.specs.Format.Faults.{IfErr, IsUncreatedBy, IsUnkept, IsUnmade, IsUnmadeBy};
ghost use Rattle.cwr_files.specs.Format.Files.{HasCounted, Same, Texts, Turns, counted_on};
ghost use Rattle.cwr_files.specs.Format.NewFiles.{unfinished_name};
ghost use Rattle.cwr_files.specs.Steps.NewFiles.{EndsDropped, EndsKept, HasBegun, HasKeptCount, IsBegun, IsDropped, IsFinished, IsPartOf, final_name};
ghost use Rattle.cwr_files.specs.Format.Written.{is_whole, times_failed, writer_in};

use crate::faults::{Fault, Name, Reason};
use crate::outputs::Written;
use crate::stores::{Found, Store, Unmade};
use std::alloc::{AllocError, Global};
use std::io;
use std::io::Write;

/// How many names are tried for a file that isn't whole yet.
const MOST_PARTS: u32 = 100;

/// A name for a file that isn't whole yet: that of the whole one and `.part`, and where others are tried the number of the try.
fn part_name(alloc: Global, name: &str, tries: u32) -> Result<String, AllocError>
    ensures { IfOk result (λ part. string_bytes part ≡ unfinished_name name.now tries) }
{
    if tries == 0 {
        format!(in alloc; "{name}.part")
    } else {
        format!(in alloc; "{name}.part{tries}")
    }
}

/// Makes a file that isn't whole yet, under the first of its names that nothing has: what is there stays as it is.
fn create_part<S: Store>(
    store: &mut S,
    alloc: Global,
    name: &str,
) -> Result<(String, S::Writer), Reason>
    ensures begun { S.making store.old ≡ None → Turns (S.held store.old) (S.held store.new) (λ texts new.
        MatchResult result
        (λ made. IsPartOf name.now (string_bytes made.0) (S.making store.new) texts new × (S.Writer.contents made.1 ≡ Some []))
        (λ _. Same texts new)) }
    ensures making { S.making store.old ≡ None → OnErr result (S.making store.new ≡ None) }
    ensures uncreated { IfErr result (IsUncreatedBy name.now (S.making store.old) (S.held store.old) (S.held store.new)
        (S.failures store.old) (S.failures store.new)) }
    ensures unfailed { OnOk result (S.failures store.new ≡ S.failures store.old) }
    ensures failures { HasKeptCount (S.failures store.old) (S.failures store.new) }
{
    for tries in 0..MOST_PARTS {
        let Ok(part) = part_name(alloc, name, tries) else {
            return Err(Reason::kind(io::ErrorKind::OutOfMemory));
        };
        match store.create_new(part.as_str()) {
            Ok(file) => return Ok((part, file)),
            Err(Unmade::IsThere) => {}
            Err(Unmade::Failed(reason)) => return Err(reason),
        }
    }
    Err(Reason::kind(io::ErrorKind::AlreadyExists))
}

/// Removes what isn't whole. Where that can't be done it stays under the name that says so.
fn drop_part<S: Store>(store: &mut S, part: &str)
    ensures dropped { Turns (S.held store.old) (S.held store.new)
        (IsDropped part.now (S.failures store.old) (S.failures store.new)) }
    ensures making { S.making store.new ≡ S.making store.old }
    ensures failures { HasKeptCount (S.failures store.old) (S.failures store.new) }
{
    let _ = store.remove(part);
}

/// Closes the part that was written, and gives it its name. Where that can't be done it is removed.
fn finish<S: Store>(store: &mut S, writer: S::Writer, part: &str, name: &str) -> Result<(), Reason>
    ensures finished { (text : List ℕ) → S.making store.old ≡ Some part.now
        → S.Writer.contents writer ≡ Some text → Turns (S.held store.old) (S.held store.new)
        (IsFinished part.now name.now text (S.failures store.old) (S.failures store.new) result) }
    ensures unfinished { S.making store.old ≡ Some part.now → OnErr result (Turns (S.held store.old) (S.held store.new)
        (IsDropped part.now (S.failures store.old + 1) (S.failures store.new))) }
    ensures making { S.making store.new ≡ None }
    ensures counted { OnErr result (HasCounted (S.failures store.old) (S.failures store.new)) }
    ensures failures { HasKeptCount (S.failures store.old) (S.failures store.new) }
{
    match store.close(writer) {
        Ok(()) => {}
        Err(reason) => {
            drop_part(store, part);
            return Err(reason);
        }
    }
    match store.rename(part, name) {
        Ok(()) => Ok(()),
        Err(reason) => {
            drop_part(store, part);
            Err(reason)
        }
    }
}

/// A file that is written. What isn't a file of its own already, as a device, a pipe or a link, is written in place; else
/// the file has another name until it is whole, which nothing had before.
#[derive(Debug, Drop)]
pub struct NewFile {
    name: String,
    part: Option<String>,
}

impl NewFile {
    /// Makes the file that is written to be the file of that name.
    ///
    /// # Errors
    ///
    /// Out of memory, or what the system answers where nothing can be told of the name, or no file be made.
    pub fn create<S: Store>(
        store: &mut S,
        alloc: Global,
        name: String,
    ) -> Result<(NewFile, S::Writer), Reason>
        ensures begun { S.making store.old ≡ None → Turns (S.held store.old) (S.held store.new) (λ texts new.
            MatchResult result
            (λ made. IsBegun made.0 (S.making store.new) texts new × (S.Writer.contents made.1 ≡ Some []))
            (λ _. Same texts new)) }
        ensures named { IfOk result (λ made. final_name made.0 ≡ string_bytes name) }
        ensures making { S.making store.old ≡ None → OnErr result (S.making store.new ≡ None) }
        ensures uncreated { IfErr result (IsUncreatedBy (string_bytes name) (S.making store.old) (S.held store.old)
            (S.held store.new) (S.failures store.old) (S.failures store.new)) }
        ensures unfailed { OnOk result (S.failures store.new ≡ S.failures store.old) }
        ensures failures { HasKeptCount (S.failures store.old) (S.failures store.new) }
    {
        match store.look(name.as_str()) {
            Ok(Found::Other) => match store.create(name.as_str()) {
                Ok(file) => Ok((NewFile { name, part: None }, file)),
                Err(reason) => Err(reason),
            },
            Ok(Found::Nothing | Found::File) => match create_part(store, alloc, name.as_str()) {
                Ok((part, file)) => {
                    let part = Some(part);
                    Ok((NewFile { name, part }, file))
                }
                Err(reason) => Err(reason),
            },
            Err(reason) => Err(reason),
        }
    }

    /// Gives the file its name, now that it is whole. A file that had the name before is replaced. Where it can't have the name it is
    /// removed.
    fn keep_file<S: Store>(self, store: &mut S, writer: S::Writer) -> Result<(), Reason>
        ensures kept { (texts : Texts) (text : List ℕ) → HasBegun self (S.making store.old) texts (S.held store.old)
            → S.Writer.contents writer ≡ Some text
            → EndsKept self text (S.failures store.old) (S.failures store.new) result texts (S.held store.new) }
        // Where it fails nothing is left of it, unless a second call failed.
        ensures unkept { (texts : Texts) → HasBegun self (S.making store.old) texts (S.held store.old)
            → OnErr result (EndsDropped self (S.failures store.old + 1) (S.failures store.new) texts (S.held store.new)) }
        ensures making { S.making store.new ≡ None }
        ensures counted { OnErr result (HasCounted (S.failures store.old) (S.failures store.new)) }
        ensures failures { HasKeptCount (S.failures store.old) (S.failures store.new) }
    {
        match &self.part {
            Some(part) => finish(store, writer, part.as_str(), self.name.as_str()),
            None => store.close(writer),
        }
    }

    /// Gives the file its name, now that it is whole. A file that had the name before is replaced. Where it can't have the name, or
    /// its writer couldn't hand on all of it, it is removed.
    pub fn keep<S: Store>(self, store: &mut S, written: Written<S::Writer>) -> Result<(), Reason>
        ensures kept { (texts : Texts) (text : List ℕ) → HasBegun self (S.making store.old) texts (S.held store.old)
            → S.Writer.contents (writer_in written) ≡ Some text
            → EndsKept self text (S.failures store.old) (S.failures store.new) result texts (S.held store.new) }
        // Where it fails nothing is left of it, unless a second call failed.
        ensures unkept { (texts : Texts) → HasBegun self (S.making store.old) texts (S.held store.old)
            → OnErr result (EndsDropped self (S.failures store.old + 1) (S.failures store.new) texts (S.held store.new)) }
        ensures whole { OnOk result (is_whole written ≡ true) }
        ensures making { S.making store.new ≡ None }
        ensures counted { OnErr result (HasCounted (S.failures store.old) (S.failures store.new)) }
        ensures failures { HasKeptCount (S.failures store.old) (S.failures store.new) }
    {
        let times = written.failures().max(1);
        match written.into_whole() {
            Some(writer) => self.keep_file(store, writer),
            None => {
                self.discard(store, times);
                Err(Reason::kind(io::ErrorKind::WriteZero))
            }
        }
    }

    /// Whether a file will be replaced.
    fn replaces<S: Store>(&self, store: &mut S) -> bool
        ensures kept { S.held store.new ≡ S.held store.old }
        ensures making { S.making store.new ≡ S.making store.old }
        ensures failures { HasKeptCount (S.failures store.old) (S.failures store.new) }
    {
        self.part.is_some() && is_there(store, self.name.as_str())
    }

    /// Gives the file its name as `keep` does, and answers whether a file was replaced. Where it fails, what it is called is told.
    pub(crate) fn keep_named<'a, S: Store>(
        self,
        store: &mut S,
        written: Written<S::Writer>,
        name: Name<'a>,
    ) -> Result<bool, Fault<'a>>
        ensures kept { (texts : Texts) (text : List ℕ) → HasBegun self (S.making store.old) texts (S.held store.old)
            → S.Writer.contents (writer_in written) ≡ Some text
            → EndsKept self text (S.failures store.old) (S.failures store.new) result texts (S.held store.new) }
        // Where it fails nothing is left of it, unless a second call failed.
        ensures unkept { (texts : Texts) → HasBegun self (S.making store.old) texts (S.held store.old)
            → OnErr result (EndsDropped self (S.failures store.old + 1) (S.failures store.new) texts (S.held store.new)) }
        ensures whole { OnOk result (is_whole written ≡ true) }
        ensures making { S.making store.new ≡ None }
        ensures counted { OnErr result (HasCounted (S.failures store.old) (S.failures store.new)) }
        ensures fault { IfErr result (IsUnkept name.entry) }
        ensures failures { HasKeptCount (S.failures store.old) (S.failures store.new) }
    {
        let replaces = self.replaces(store);
        match self.keep(store, written) {
            Ok(()) => Ok(replaces),
            Err(reason) => Err(Fault::Output(name, Some(reason))),
        }
    }

    /// Gives the file its name as `keep` does, and tells on standard error that a file was replaced, if one was. Where it fails, what it is
    /// called is told.
    pub fn keep_as<'a, S: Store, E: Write>(
        self,
        store: &mut S,
        written: Written<S::Writer>,
        name: Name<'a>,
        error: &mut E,
    ) -> Result<(), Fault<'a>>
        ensures kept { (texts : Texts) (text : List ℕ) → HasBegun self (S.making store.old) texts (S.held store.old)
            → S.Writer.contents (writer_in written) ≡ Some text
            → EndsKept self text (S.failures store.old) (S.failures store.new) result texts (S.held store.new) }
        // Where it fails nothing is left of it, unless a second call failed.
        ensures unkept { (texts : Texts) → HasBegun self (S.making store.old) texts (S.held store.old)
            → OnErr result (EndsDropped self (S.failures store.old + 1) (S.failures store.new) texts (S.held store.new)) }
        ensures whole { OnOk result (is_whole written ≡ true) }
        ensures making { S.making store.new ≡ None }
        ensures counted { OnErr result (HasCounted (S.failures store.old) (S.failures store.new)) }
        ensures fault { IfErr result (IsUnkept name.entry) }
        ensures failures { HasKeptCount (S.failures store.old) (S.failures store.new) }
    {
        match self.keep_named(store, written, name) {
            Ok(replaced) => {
                if replaced {
                    // What standard error doesn't take is lost.
                    let _ = writeln!(error, "cwr: {name} was replaced");
                }
                Ok(())
            }
            Err(fault) => Err(fault),
        }
    }

    /// Takes back the file's writer, and removes the file. Where that can't be done it stays under the name that says so.
    pub fn give_up<S: Store>(self, store: &mut S, written: Written<S::Writer>)
        ensures dropped { (texts : Texts) → HasBegun self (S.making store.old) texts (S.held store.old)
            → EndsDropped self (counted_on (times_failed written) (S.failures store.old)) (S.failures store.new) texts (S.held store.new) }
        ensures making { S.making store.new ≡ None }
        ensures failures { HasKeptCount (counted_on (times_failed written) (S.failures store.old)) (S.failures store.new) }
    {
        let times = written.failures();
        drop(written);
        self.discard(store, times);
    }

    /// Removes the file, whose writer is gone and failed so often. Where that can't be done it stays under the name that says so.
    pub fn discard<S: Store>(self, store: &mut S, times: u64)
        ensures dropped { (texts : Texts) → HasBegun self (S.making store.old) texts (S.held store.old)
            → EndsDropped self (counted_on times (S.failures store.old)) (S.failures store.new) texts (S.held store.new) }
        ensures making { S.making store.new ≡ None }
        ensures failures { HasKeptCount (counted_on times (S.failures store.old)) (S.failures store.new) }
    {
        store.give_up(times);
        if let Some(part) = &self.part {
            drop_part(store, part.as_str());
        }
    }
}

/// Whether something has the name. No is the answer too where nothing can be told of it.
pub fn is_there<S: Store>(store: &mut S, name: &str) -> bool
    ensures there { result ≡ true → IfSome (S.held store.old) (λ texts. IsSome (texts name.now)) }
    ensures kept { S.held store.new ≡ S.held store.old }
    ensures making { S.making store.new ≡ S.making store.old }
    ensures failures { HasKeptCount (S.failures store.old) (S.failures store.new) }
{
    match store.look(name) {
        Ok(Found::File | Found::Other) => true,
        Ok(Found::Nothing) | Err(_) => false,
    }
}

/// Makes the file that a transmission is written to. None has an empty name.
pub fn create_output<'a, S: Store>(
    store: &mut S,
    alloc: Global,
    out: &'a str,
) -> Result<(NewFile, S::Writer), Fault<'a>>
    ensures begun { S.making store.old ≡ None → Turns (S.held store.old) (S.held store.new) (λ texts new.
        MatchResult result
        (λ made. IsBegun made.0 (S.making store.new) texts new × (S.Writer.contents made.1 ≡ Some []))
        (λ _. Same texts new)) }
    ensures named { IfOk result (λ made. final_name made.0 ≡ out.now) }
    ensures making { S.making store.old ≡ None → OnErr result (S.making store.new ≡ None) }
    ensures unfailed { OnOk result (S.failures store.new ≡ S.failures store.old) }
    ensures unmade { IfErr result (IsUnmade (Name.File out.entry)) }
    ensures failed { IfErr result (IsUnmadeBy out.now (S.making store.old) (S.held store.old) (S.held store.new)
        (S.failures store.old) (S.failures store.new)) }
    ensures failures { HasKeptCount (S.failures store.old) (S.failures store.new) }
{
    if out.is_empty() {
        let reason = Reason::kind(io::ErrorKind::NotFound);
        return Err(Fault::Open(Name::File(out), Some(reason)));
    }
    let Ok(name) = out.to_string(alloc) else {
        return Err(Fault::Memory);
    };
    match NewFile::create(store, alloc, name) {
        Ok(made) => Ok(made),
        Err(reason) if reason.is_of_memory() => Err(Fault::Memory),
        Err(reason) => Err(Fault::Open(Name::File(out), Some(reason))),
    }
}
