//! What the system says of files: which names are those of one, and how large it is.

ghost use Rattle.std.specs.Prelude.{◌≡◌};
ghost use Rattle.cwr_files.specs.Format.Inputs.{path_of_input};

use crate::inputs::DASH;
use std::alloc::{AllocError, Global};
use std::io::Read;
use std::os::unix::fs::MetadataExt;
use std::rt::Files;

/// A file's device and its number there, by which it is known under each of its names.
#[derive(Clone, Copy, Debug, PartialEq, Eq)]
pub(crate) struct Identity {
    device: u64,
    number: u64,
}

/// How many bytes of names are read at once.
const FOLDER_BLOCK: usize = 4096;

/// The name under which the system has standard input.
const STANDARD_INPUT: &str = "/dev/stdin";

/// What the file of that name is known by, where it is there and holds what is written to it.
pub(crate) fn identity_of<R: Files>(rt: &R, name: &str) -> Option<Identity> {
    match rt.metadata(name) {
        Ok(found) if found.is_file() && found.ino() > 0 => Some(Identity {
            device: found.dev(),
            number: found.ino(),
        }),
        _ => None,
    }
}

/// The name under which the system has the input that a word names.
pub fn path_of_input(word: &str) -> &str
    ensures { result.now ≡ path_of_input word.now }
{
    if word == DASH { STANDARD_INPUT } else { word }
}

/// How many bytes the file of that name has, where it holds what is written to it.
pub(crate) fn size_of<R: Files>(rt: &R, name: &str) -> Option<u64> {
    match rt.metadata(name) {
        Ok(found) if found.is_file() => Some(found.len()),
        _ => None,
    }
}

/// The number in the name of a part: what follows the prefix, where that is eight digits.
pub fn part_number(name: &str, prefix: &str) -> Option<u32> {
    let digits = name.strip_prefix(prefix)?;
    if digits.len() == 8 && digits.bytes().all(|digit| digit.is_ascii_digit()) {
        digits.parse::<u32>().ok()
    } else {
        None
    }
}

/// The folder of the files whose names begin with the prefix, and what their names begin with there.
fn folder_of(prefix: &str) -> (&str, &str) {
    match prefix.rsplit_once('/') {
        None => (".", prefix),
        Some((folder, start)) if folder.is_empty() => ("/", start),
        Some((folder, start)) => (folder, start),
    }
}

/// The number of the part that a name of the prefix's folder is, where that is the file.
fn number_of_file<R: Files>(
    rt: &R,
    alloc: Global,
    file: Identity,
    prefix: &str,
    number: u32,
) -> Result<Option<u32>, AllocError> {
    let name = format!(in alloc; "{prefix}{number:08}")?;
    let found = identity_of(rt, name.as_str());
    Ok((found == Some(file)).then_some(number))
}

/// The number of a part of the prefix that is there already and is the file, under whatever name: a link, or another one. In a folder that
/// can't be read none is found.
pub(crate) fn part_that_is<R: Files>(
    rt: &R,
    alloc: Global,
    file: Identity,
    prefix: &str,
) -> Result<Option<u32>, AllocError> {
    let (folder, start) = folder_of(prefix);
    let Ok(mut listing) = rt.open_dir(folder) else {
        return Ok(None);
    };
    let mut block = [0; FOLDER_BLOCK];
    // A read gives whole names, each ended by a zero.
    for _ in 0..u32::MAX {
        let count = match listing.read(&mut block) {
            Ok(count) if count > 0 => count,
            _ => return Ok(None),
        };
        for name in block[..count].split(|byte| *byte == 0) {
            let name = std::str::from_utf8(name).unwrap_or("");
            if let Some(number) = part_number(name, start) {
                let found = number_of_file(rt, alloc, file, prefix, number)?;
                if found.is_some() {
                    return Ok(found);
                }
            }
        }
    }
    Ok(None)
}
