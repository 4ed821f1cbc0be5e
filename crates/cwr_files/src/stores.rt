//! Files under names, as a run sees them.

ghost use Rattle.std.specs.Prelude.{◌≡◌, ℕ, List, Option, None};
ghost use Rattle.cwr_devices.specs.Steps.Sources.{failures_of, inner_of};
ghost use Rattle.cwr_files.specs.Format.Files.{AreOne, Counts, CountsMaking, Finds, IsClosed, IsGivenUp, IsMade, IsMaking, IsOpened, IsRemoved, IsRenamed, Opens, Texts, Turns, counted_on};

use crate::faults::Reason;
use cwr_devices::ReadAhead;
use std::alloc::{AllocError, Global};
use std::io::{Read, Write};

/// What has a name.
#[derive(Clone, Copy, Debug, PartialEq, Eq)]
pub enum Found {
    /// Nothing.
    Nothing,
    /// A file of its own.
    File,
    /// Something else: a device, a pipe, a folder or a link.
    Other,
}

/// Why a file couldn't be made under a new name.
#[derive(Clone, Copy, Debug, PartialEq, Eq)]
pub enum Unmade {
    /// Something has the name.
    IsThere,
    /// The call failed, and was counted.
    Failed(Reason),
}

/// Files under names. Each method is one call of the system, but for those that ask which names are those of one file. One file is written
/// at a time.
pub trait Store {
    /// What a file is read from.
    type Reader: Read + Drop;

    /// What a file is written to.
    type Writer: Write + Drop;

    // What lies under each name, where that is known: then each name is that of a file of its own, or of nothing.
    ghost held: { Self → Option Texts };

    // The name that is being written, where texts are known.
    ghost making: { Self → Option (List ℕ) };

    // How many calls failed, and how often the readers did that came back and the writers that were given up.
    ghost failures: { Self → ℕ };

    /// Opens the file of that name, to be read from its first byte.
    fn open(&mut self, name: &str) -> Result<Self::Reader, Reason>
        ensures opened { Opens Self.Reader.remaining (held self.old) name.now result }
        ensures kept { held self.new ≡ held self.old }
        ensures making { making self.new ≡ making self.old }
        ensures failures { Counts result (failures self.old) (failures self.new) };

    /// Takes back an input that is read no further. How often it failed is counted.
    fn end<R>(&mut self, reader: ReadAhead<R>) -> R
        ensures reader { result ≡ inner_of reader }
        ensures kept { held self.new ≡ held self.old }
        ensures making { making self.new ≡ making self.old }
        ensures failures { failures self.new ≡ counted_on (failures_of reader) (failures self.old) };

    /// How many bytes the file of that name has, where it holds what is written to it.
    fn size(&mut self, name: &str) -> Option<u64>
        ensures kept { held self.new ≡ held self.old }
        ensures making { making self.new ≡ making self.old }
        ensures failures { failures self.new ≡ failures self.old };

    /// Whether both are names of one file that is there and holds what is written to it.
    fn are_one(&mut self, name: &str, other: &str) -> bool
        ensures one { AreOne (held self.old) name.now other.now result }
        ensures kept { held self.new ≡ held self.old }
        ensures making { making self.new ≡ making self.old }
        ensures failures { failures self.new ≡ failures self.old };

    /// The number of a part of the prefix, in eight digits after it, that is there already and is the file of that name, under whatever
    /// name. In a folder that can't be read none is found.
    fn part_that_is(
        &mut self,
        alloc: Global,
        name: &str,
        prefix: &str,
    ) -> Result<Option<u32>, AllocError>
        ensures kept { held self.new ≡ held self.old }
        ensures making { making self.new ≡ making self.old }
        ensures failures { failures self.new ≡ failures self.old };

    /// Says what has the name.
    fn look(&mut self, name: &str) -> Result<Found, Reason>
        ensures found { Finds (held self.old) name.now result }
        ensures kept { held self.new ≡ held self.old }
        ensures making { making self.new ≡ making self.old }
        ensures failures { Counts result (failures self.old) (failures self.new) };

    /// Makes a file under a name that nothing has. Until it is closed, what lies there isn't said.
    fn create_new(&mut self, name: &str) -> Result<Self::Writer, Unmade>
        ensures made { making self.old ≡ None
            → Turns (held self.old) (held self.new) (IsMade Self.Writer.contents name.now result) }
        ensures making { making self.old ≡ None
            → IsMaking (held self.old) name.now result (making self.new) }
        ensures failures { CountsMaking result (failures self.old) (failures self.new) };

    /// Opens what has the name, to be written anew in its place.
    fn create(&mut self, name: &str) -> Result<Self::Writer, Reason>
        ensures opened { making self.old ≡ None
            → Turns (held self.old) (held self.new) (IsOpened Self.Writer.contents name.now result) }
        ensures making { making self.old ≡ None
            → IsMaking (held self.old) name.now result (making self.new) }
        ensures failures { Counts result (failures self.old) (failures self.new) };

    /// Closes the file that is being written, and takes its writer back.
    fn close(&mut self, writer: Self::Writer) -> Result<(), Reason>
        ensures closed { Turns (held self.old) (held self.new)
            (IsClosed (making self.old) (Self.Writer.contents writer) result) }
        ensures making { making self.new ≡ None }
        ensures failures { Counts result (failures self.old) (failures self.new) };

    /// The writer of the file that is being written is gone, which failed so often: the file won't be whole.
    fn give_up(&mut self, times: u64)
        ensures given_up { Turns (held self.old) (held self.new) (IsGivenUp (making self.old)) }
        ensures making { making self.new ≡ None }
        ensures failures { failures self.new ≡ counted_on times (failures self.old) };

    /// Gives the file of the one name the other one. A file that had it is replaced.
    fn rename(&mut self, from: &str, to: &str) -> Result<(), Reason>
        ensures renamed { Turns (held self.old) (held self.new)
            (IsRenamed from.now to.now result) }
        ensures making { making self.new ≡ making self.old }
        ensures failures { Counts result (failures self.old) (failures self.new) };

    /// Removes the file of that name.
    fn remove(&mut self, name: &str) -> Result<(), Reason>
        ensures removed { Turns (held self.old) (held self.new) (IsRemoved name.now result) }
        ensures making { making self.new ≡ making self.old }
        ensures failures { Counts result (failures self.old) (failures self.new) };
}

/// Counts a failure, and answers why the call failed.
pub(crate) fn count_failure(failures: &mut u64, reason: Reason) -> Reason
    ensures counted { failures.new ≡ counted_on 1 failures.old }
    ensures reason { result ≡ reason }
{
    *failures = failures.saturating_add(1);
    reason
}
