//! The inputs of a join: opened in their order, looked at after their transmissions, and taken back.

ghost use Rattle.std.specs.Prelude.{◌≡◌, IfOk, OnOk};
ghost use Rattle.cwr_devices.specs.Steps.Sources.{failures_of};
ghost use Rattle.cwr_files.specs.Format.Faults.{IfErr};
ghost use Rattle.cwr_files.specs.Format.Files.{HasCounted};
ghost use Rattle.cwr_files.specs.Steps.NewFiles.{HasKeptCount};
ghost use Rattle.cwr_transform.specs.Format.Joins.{IsUnread, IsUnreadBy};
ghost use Rattle.cwr_transform.specs.Steps.Joins.{HasFailed, LooksAfter, ReadEach, left_of, seen_with};

use cwr_devices::{ReadAhead, Source};
use cwr_endings::{Look, follows, look_beyond, tell_following};
use cwr_files::{Fault, Input, Name, Store, Told, Unwatched, end_input, is_standard, open_input};
use std::alloc::Global;
use std::io::{Read, Write};

/// An input that is read. How far that is isn't followed: the result is, as it is written.
pub(crate) type Reader<'a, F, I> = ReadAhead<Input<'a, F, I, Unwatched>>;

/// The inputs of these names, in their order.
pub(crate) fn open_inputs<'a, S: Store, I: Read + Drop>(
    store: &mut S,
    alloc: Global,
    names: &[&'a str],
    standard: I,
) -> Result<Vec<Reader<'a, S::Reader, I>>, Fault<'a>>
    ensures opened { IfOk result (λ readers. ReadEach (S.held store.old) (I.remaining standard)
        (left_of S.Reader.remaining I.remaining) names.now readers.items) }
    ensures unopened { IfErr result IsUnread }
    ensures counted { IfErr result (λ fault. IsUnreadBy fault (S.failures store.old) (S.failures store.new)) }
    ensures kept { S.held store.new ≡ S.held store.old }
    ensures making { S.making store.new ≡ S.making store.old }
    ensures failures { OnOk result (S.failures store.new ≡ S.failures store.old) }
{
    let mut standard = Some(standard);
    let mut readers = Vec::new(alloc);
    for name in names {
        match open_input(store, Some(*name), &mut standard, Unwatched) {
            Ok(input) => {
                if readers.push(ReadAhead::new(input)).is_err() {
                    return Err(Fault::Memory);
                }
            }
            Err(fault) => return Err(fault),
        }
    }
    Ok(readers)
}

/// Takes the inputs back. What is known of the one of that number, from 1, is the answer.
pub(crate) fn end_inputs<'a, S: Store, F: Drop, I: Drop>(
    store: &mut S,
    readers: Vec<Reader<'a, F, I>>,
    number: usize,
) -> Option<Told<'a>>
    ensures kept { S.held store.new ≡ S.held store.old }
    ensures making { S.making store.new ≡ S.making store.old }
    ensures failures { HasKeptCount (S.failures store.old) (S.failures store.new) }
    ensures failed { HasFailed failures_of readers.entry.items
        → HasCounted (S.failures store.old) (S.failures store.new) }
{
    let mut found = None;
    let mut at: usize = 0;
    for reader in readers {
        let told = end_input(store, reader);
        at = at.saturating_add(1);
        if at == number {
            found = Some(told);
        }
    }
    found
}

/// What a word that names an input is called in messages.
pub(crate) fn name_of(word: &str) -> Name<'_> {
    if is_standard(Some(word)) {
        Name::StandardInput
    } else {
        Name::File(word)
    }
}

/// What was seen after some inputs, with what is seen after the one of that number: whether bytes stand there, or the number of the first
/// that failed.
fn seen_with(seen: Result<bool, usize>, look: &Look, number: usize) -> Result<bool, usize>
    ensures { result ≡ seen_with seen look.now number }
{
    match (seen, look) {
        (Ok(found), Look::Found(trailing)) => Ok(found || follows(trailing)),
        (Ok(_), Look::Failed | Look::Unasked) => Err(number),
        (Err(first), _) => Err(first),
    }
}

/// Looks what stands after the transmission of each input, and tells it: whether bytes do, or the number of the input that failed there.
pub(crate) fn look_after_each<R: Source, E: Write>(
    readers: &mut [R],
    names: &[&str],
    error: &mut E,
) -> Result<bool, usize>
    ensures { LooksAfter R.remaining R.failures readers.old readers.new result }
{
    let mut seen = Ok(false);
    for i in 0..readers.len() {
        let look = look_beyond(&mut readers[i]);
        seen = seen_with(seen, &look, i + 1);
        if let Some(word) = names.get(i) {
            tell_following(error, name_of(word), &look);
        }
    }
    seen
}
