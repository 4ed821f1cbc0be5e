//! Room for lists that grow.

ghost use Rattle.std.specs.Prelude.{◌≡◌, ◌+◌, ◌<◌, length, vec_len, vec_capacity, IfOk, OnErr};
ghost use Rattle.std.specs.Int.{IsPowerOfTwo};
ghost use Rattle.cwr_fields.specs.Format.Growth.{Outgrows};
ghost use Rattle.cwr_fields.specs.Steps.Growth.{IsRoom};

use std::alloc::AllocError;

/// Makes room for `more` elements, and answers how many there is room for then. Where those don't fit into the `room` of
/// before, the list gets room for the next power of two, from `least` on. It fails only where the list outgrows its room
/// and memory was refused, and then nothing is changed.
#[inline]
pub fn make_room<T>(
    list: &mut Vec<T>,
    room: usize,
    least: usize,
    more: usize,
) -> Result<usize, AllocError>
    requires power { IsPowerOfTwo least }
    requires room { IsRoom least room (vec_len list.old) (vec_capacity list.old) }
    ensures items { list.new.items ≡ list.old.items }
    ensures len { vec_len list.new ≡ vec_len list.old }
    ensures ok { IfOk result (λ r. IsRoom least r (vec_len list.old + more) (vec_capacity list.new)) }
    ensures err { OnErr result (vec_capacity list.new ≡ vec_capacity list.old) }
    ensures asks { OnErr result
        (Outgrows least (length list.old.items) (length list.old.items + more)) }
{
    let len = list.as_slice().len();
    if more <= room - len {
        return Ok(room);
    }
    grow(list, room, least, more)
}

/// The part of `make_room` that asks for memory.
#[cold]
#[inline(never)]
fn grow<T>(list: &mut Vec<T>, room: usize, least: usize, more: usize) -> Result<usize, AllocError>
    requires power { IsPowerOfTwo least }
    requires room { IsRoom least room (vec_len list.old) (vec_capacity list.old) }
    requires outgrown { room < vec_len list.old + more }
    ensures items { list.new.items ≡ list.old.items }
    ensures len { vec_len list.new ≡ vec_len list.old }
    ensures ok { IfOk result (λ r. IsRoom least r (vec_len list.old + more) (vec_capacity list.new)) }
    ensures err { OnErr result (vec_capacity list.new ≡ vec_capacity list.old) }
{
    let len = list.len();
    let needed = len.checked_add(more).ok_or(AllocError)?;
    let power = needed.checked_next_power_of_two().ok_or(AllocError)?;
    let size = if power < least { least } else { power };
    list.reserve_exact(size - len)?;
    Ok(size)
}
