//! What stands after a transmission, looked for and told.

ghost use Rattle.cwr_endings.specs.Steps.Looks.{CountsLook, IsLook};

use crate::endings::{Look, follows};
use cwr_causes::{Trailing, read_trailing};
use cwr_devices::Source;
use cwr_files::Name;
use std::io;
use std::io::Write;

/// Looks what an input has left after its transmission.
pub fn look_beyond<R: Source>(reader: &mut R) -> Look
    ensures look { IsLook (R.remaining reader.old) (R.remaining reader.new) result }
    ensures failures { CountsLook result (R.failures reader.old) (R.failures reader.new) }
{
    match read_trailing(reader) {
        Ok(found) => Look::Found(found),
        Err(_) => Look::Failed,
    }
}

/// Writes to standard error what stands after the transmission of that input, if bytes do.
fn put_following<E: Write>(error: &mut E, name: Name<'_>, trailing: &Trailing) -> io::Result<()> {
    let least = if trailing.is_all { "" } else { "at least " };
    match trailing.bytes {
        1 => write!(error, "cwr: {name}: 1 byte follows the transmission")?,
        count => write!(
            error,
            "cwr: {name}: {least}{count} bytes follow the transmission"
        )?,
    }
    if trailing.begins == *b"HDR" {
        writeln!(error, ", the first of them look like another one (HDR)")
    } else {
        writeln!(error)
    }
}

/// Tells on standard error what stands after the transmission of that input, or that it can't be read. What standard error doesn't
/// take is lost.
pub fn tell_following<E: Write>(error: &mut E, name: Name<'_>, look: &Look) {
    let _ = match look {
        Look::Found(trailing) if follows(trailing) => put_following(error, name, trailing),
        Look::Failed => writeln!(
            error,
            "cwr: {name}: what follows the transmission can't be read"
        ),
        Look::Found(_) | Look::Unasked => Ok(()),
    };
}
