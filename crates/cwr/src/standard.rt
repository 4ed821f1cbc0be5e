//! The numbers of standard input, output and error, where the program was started without one of these.

use std::fs::{File, OpenOptions};
use std::os::fd::AsRawFd;

/// What takes the place of one that is closed: nothing is in it.
const NOTHING: &str = "/dev/null";

/// The number of standard input.
const INPUT: i32 = 0;

/// That of standard error, the last of the three.
const ERROR: i32 = 2;

/// Opens what takes the place of the first one that is closed, if one is. A read of standard input then fails as it did, and so does a
/// write to the others. Where nothing can be opened, the place stays free.
fn hold_next(rt: &HostRuntime) -> Option<File> {
    let file = File::open(rt, NOTHING).ok()?;
    if file.as_raw_fd() != INPUT {
        return (file.as_raw_fd() <= ERROR).then_some(file);
    }
    drop(file);
    OpenOptions::new().write(true).open(rt, NOTHING).ok()
}

/// Takes the numbers of those that are closed for as long as the answer is there. Else a file of the run would get such a number, and what
/// is printed would be written to it.
pub(crate) fn hold_standard(rt: &HostRuntime) -> [Option<File>; 3] {
    let first = hold_next(rt);
    let second = hold_next(rt);
    let third = hold_next(rt);
    [first, second, third]
}
