//! The end of a text in memory.

ghost use Rattle.cwr_decode.specs.Format.Headline.{HasEnd};

use crate::indexing::index;
use cwr_judge::Refusal;
use cwr_shape::Limits;

/// How a text ends. What stands after a transmission isn't judged.
#[derive(Clone, Copy, Debug, PartialEq, Eq)]
pub enum End {
    /// It begins with a transmission, which takes so many of its bytes.
    Accepted {
        /// How many bytes, the last line's end counted where it is there.
        used: usize,
    },
    /// It is refused there, and for that.
    Refused(Refusal),
    /// It is the beginning of a transmission, and no more.
    Truncated {
        /// How many records it has.
        records: u32,
    },
}

/// The end of a text, within the limits. It takes no memory, so each text has one.
pub fn end_of(limits: Limits, text: &[u8]) -> End
    ensures { HasEnd limits text.now result }
{
    index(limits, text, &mut []).1
}
