//! What is said of the bytes after a transmission.

ghost use Rattle.std.specs.Prelude.{◌≡◌, ◌++◌, option_map, string_bytes, OnOk};
ghost use Rattle.cwr_causes.specs.Format.TrailingTexts.{after_words, count_words, is_signature, least_words, remainder_of, remainder_said, second_line, second_of_many, second_words, trailing_words};

use crate::causes::add_note_if;
use crate::texts::add_label;
use crate::trailing::Trailing;
use cwr_fields::Kind;
use std::alloc::AllocError;
use std::fmt::Write;

/// Adds how many bytes stand there.
#[tactic(auto, unfolding(crate::specs::Format::TrailingTexts::count_words))]
fn add_count(text: &mut String, count: u64) -> Result<(), AllocError>
    ensures { OnOk result (string_bytes text.new ≡ string_bytes text.old ++ count_words count) }
{
    if count == 1 {
        text.push_str("1 byte stands")
    } else {
        write!(text, "{count} bytes stand")
    }
}

/// Adds that there may be more of them.
fn add_least(text: &mut String, is_all: bool) -> Result<(), AllocError>
    ensures { OnOk result (string_bytes text.new ≡ string_bytes text.old ++ least_words is_all) }
{
    if is_all {
        Ok(())
    } else {
        text.push_str("at least ")
    }
}

/// Adds that so many bytes begin as another transmission does, and how both become one file.
#[tactic(auto, unfolding(crate::specs::Format::TrailingTexts::second_line))]
fn add_second_line(text: &mut String, count: u64) -> Result<(), AllocError>
    ensures { OnOk result (string_bytes text.new ≡ string_bytes text.old ++ second_line count) }
{
    add_label(text, "note")?;
    writeln!(
        text,
        "it begins with HDR, as a second transmission does: put the last {count} bytes into a file of their own, check both, and put them together: cwr join -o OUT --new A B; but if it is the same one again, remove it, as each work would be sent twice"
    )
}

/// Adds the same where it isn't known how many these are.
#[tactic(auto, unfolding(crate::specs::Format::TrailingTexts::second_of_many))]
fn add_second_of_many(text: &mut String) -> Result<(), AllocError>
    ensures { OnOk result (string_bytes text.new ≡ string_bytes text.old ++ second_of_many) }
{
    add_label(text, "note")?;
    text.push_str(
        "it begins with HDR, as a second transmission does: check that one in a file of its own\n",
    )
}

/// What the bytes after a transmission look like where no second one begins there.
#[derive(Clone, Copy, Debug, PartialEq, Eq)]
pub(crate) enum Remainder {
    /// Blank lines, the end mark of a text of DOS, and the like.
    Filler,
    /// The signature of a mail.
    Signature,
    /// Records.
    Records,
    /// Nothing of these.
    Unknown,
}

/// Whether they begin as the signature of a mail does.
fn is_signature(begins: &[u8]) -> bool
    ensures { result ≡ is_signature begins.now }
{
    match begins {
        [a, b, c, ..] => { *a == b'-' && *b == b'-' && (*c == b' ' || *c == b'\r' || *c == b'\n') }
        _ => false,
    }
}

/// What they look like.
fn remainder_of(found: &Trailing) -> Remainder
    ensures { result ≡ remainder_of found.now }
{
    if found.is_filler && found.is_all {
        Remainder::Filler
    } else if is_signature(&found.begins[..]) {
        Remainder::Signature
    } else if Kind::of(&found.begins[..]).is_some() {
        Remainder::Records
    } else {
        Remainder::Unknown
    }
}

impl Remainder {
    /// What to say of it.
    fn words(self) -> Option<&'static str>
        ensures { option_map (λ words. words.now) result ≡ remainder_said self }
    {
        match self {
            Remainder::Filler => Some(
                "only blanks, line ends, zeros or end marks of DOS (byte 26) stand there: nothing is lost without them",
            ),
            Remainder::Signature => Some("it begins as the signature of a mail does"),
            Remainder::Records => Some(
                "it begins as a record does: if it belongs to the transmission, put it before TRL, and mend the counts",
            ),
            Remainder::Unknown => None,
        }
    }
}

/// Adds the same, if they do, and else what they look like.
fn add_second(text: &mut String, found: &Trailing) -> Result<(), AllocError>
    ensures { OnOk result (string_bytes text.new ≡ string_bytes text.old ++ second_words found.now) }
{
    if &found.begins[..] != b"HDR".as_slice() {
        add_note_if(text, remainder_of(found).words())
    } else if found.is_all {
        add_second_line(text, found.bytes)
    } else {
        add_second_of_many(text)
    }
}

/// Adds how many bytes stand after a transmission, and that nobody judges them.
#[tactic(auto, unfolding(crate::specs::Format::TrailingTexts::after_words))]
fn add_after(text: &mut String, name: &str, found: &Trailing) -> Result<(), AllocError>
    ensures { OnOk result (string_bytes text.new ≡ string_bytes text.old ++ after_words name.now found.now) }
{
    add_label(text, "after")?;
    add_least(text, found.is_all)?;
    add_count(text, found.bytes)?;
    writeln!(
        text,
        " in {name} after the transmission; what stands there isn't judged"
    )
}

/// Adds what is said of the bytes after a transmission.
#[tactic(auto, unfolding(crate::specs::Format::TrailingTexts::trailing_words))]
pub fn add_trailing(text: &mut String, name: &str, found: &Trailing) -> Result<(), AllocError>
    ensures { OnOk result (string_bytes text.new ≡ string_bytes text.old ++ trailing_words name.now found.now) }
{
    if found.bytes == 0 {
        return Ok(());
    }
    add_after(text, name, found)?;
    add_second(text, found)
}
