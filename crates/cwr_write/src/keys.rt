//! Keys of fields.

ghost use Rattle.std.specs.Prelude.{◌≡◌, ◌≤◌, ◌<◌, ℕ, length, MatchOption, IsSomeAnd, true, false, if◌then◌else◌};
ghost use Rattle.std.specs.Str.{bytes_eq};
ghost use Rattle.cwr_fields.specs.Format.Layouts.{field_at, layout};
ghost use Rattle.cwr_json.specs.Format.Forms.{key_byte, key_of};
ghost use Rattle.cwr_write.specs.Steps.Filling.{names_field};

use cwr_fields::{Kind, field, fields};

/// A byte of a key, by that of a field's name.
#[inline(always)]
fn key_byte(b: u8) -> u8
    ensures { result ≡ key_byte b }
{
    if b == b' ' || b == b'-' { b'_' } else { b }
}

/// Whether the key is that of a field's name.
fn is_key_of(key: &[u8], name: &[u8]) -> bool
    ensures { result ≡ bytes_eq key.now (key_of name.now) }
{
    if key.len() != name.len() {
        return false;
    }
    for i in 0..name.len() {
        if key[i] != key_byte(name[i]) {
            return false;
        }
    }
    true
}

/// Whether the kind has a field `j`, and that has the key.
fn has_key(kind: Kind, j: u8, key: &[u8]) -> bool
    ensures { result ≡ names_field kind j key.now }
{
    match field(kind, j) {
        Some(place) => is_key_of(key, place.name.as_bytes()),
        None => false,
    }
}

/// The number of the field of that key, sought from the field after number `from` on, and then from the first one on.
pub(crate) fn field_of_key(kind: Kind, key: &str, from: u8) -> Option<u8>
    ensures { MatchOption result ((j : ℕ) → names_field kind j key.now ≡ false)
        (λ j. names_field kind j key.now ≡ true) }
{
    let count = fields(kind);
    for j in from..count {
        if has_key(kind, j + 1, key.as_bytes()) {
            return Some(j + 1);
        }
    }
    for j in 0..count {
        if has_key(kind, j + 1, key.as_bytes()) {
            return Some(j + 1);
        }
    }
    None
}
