//! Laws over the ends of texts, and those over transmissions that they stand on.

ghost use Rattle.std.specs.Prelude.{List, [], length, true, ℕ, ◌++◌, ◌*◌, ◌≡◌, ◌≤◌};
ghost use Rattle.std.specs.Prelude.{suc, ◌↔◌};
ghost use Rattle.cwr_shape.specs.Format.Ranges.{AreInRange, LimitValues};
ghost use Rattle.cwr_judge.specs.Format.GoodFronts.{ContinuesFrom};
ghost use Rattle.cwr_judge.specs.Format.Places.{Viable};
ghost use Rattle.cwr_judge.specs.Format.Ends.{IsAccepted, IsNotAccepted, IsNotRefused, IsRefused, IsTruncated};
ghost use Rattle.cwr_judge.specs.Format.FormerEnds.{IsAcceptedIn};
ghost use Rattle.cwr_judge.specs.Format.Items.{items, value_items};
ghost use Rattle.cwr_judge.specs.declared.refusals.Refusal.{Refusal};
ghost use Rattle.cwr_decode.specs.Steps.Laws.{ItemsAreTheFirst, ItemsBeginTheAccepted, UsedBytesAreBounded};
ghost use Rattle.cwr_decode.specs.Steps.Machines.{held_list};
ghost use Rattle.cwr_lines.specs.Format.Lines.{closed, raw_lines};
ghost use Rattle.cwr_shape.specs.Format.UncarriedOrder.{IsUncarriedShape, IsUncopiedShape};
ghost use Rattle.cwr_shape.specs.declared.limits.Limits.{Limits};
ghost use Rattle.cwr_values.specs.Format.Rows.{canonical_text, rows};
ghost use Rattle.cwr_values.specs.Format.Values.{FitsIn, IsTransmission, TransmissionValue};

use crate::decoders::Decoder;
pub use cwr_shape::laws::no_transmission_continues;
pub use cwr_values::laws::{
    canonical_text_spells, line_has_one_row, numbers_fit_their_fields,
    text_begins_with_one_spelling,
};

/// A text is accepted as one transmission at most, and with one number of its bytes.
pub fn accepted_once()
    ensures { (limits : Limits) (text : List ℕ) (v w : TransmissionValue) (m n : ℕ) → IsAccepted limits text v m
        → IsAccepted limits text w n → (v ≡ w) × (m ≡ n) }
{}

/// The canonical text of a transmission within the limits is accepted, whatever follows it.
pub fn canonical_text_is_accepted()
    ensures { (limits : Limits) (v : TransmissionValue) (more : List ℕ) → IsTransmission v → FitsIn limits v
        → IsAccepted limits (canonical_text v ++ more) v (length (canonical_text v)) }
{}

/// The canonical text of a transmission that was read, from whatever spelling, is accepted as the same transmission,
/// whatever follows it.
pub fn accepted_again_when_canonical()
    ensures { (limits : Limits) (text : List ℕ) (v : TransmissionValue) (n : ℕ) (more : List ℕ) → IsAccepted limits text v n
        → IsAccepted limits (canonical_text v ++ more) v (length (canonical_text v)) }
{}

/// A text that is accepted in an order without copies, with carried records or without, is accepted today, with the same value
/// and as many bytes.
pub fn accepted_in_former_orders()
    ensures uncarried { (limits : Limits) (text : List ℕ) (v : TransmissionValue) (n : ℕ) → IsAcceptedIn IsUncarriedShape limits text v n
        → IsAccepted limits text v n }
    ensures uncopied { (limits : Limits) (text : List ℕ) (v : TransmissionValue) (n : ℕ) → IsAcceptedIn IsUncopiedShape limits text v n
        → IsAccepted limits text v n }
{}

/// The items that a transmission's rows give are it, opened, each of its groups with each of its transactions, and
/// its end: no record is handed out with another transaction's.
pub fn items_are_its_parts()
    ensures { (limits : Limits) (v : TransmissionValue) → IsTransmission v → FitsIn limits v
        → limits.records ≤ 99999999 → items (rows v) ≡ value_items v }
{}

/// A text has at most one of the three ends, and that in one way.
pub fn one_end_at_most()
    ensures accepted_or_refused { (limits : Limits) (text : List ℕ) (v : TransmissionValue) (n : ℕ) (refusal : Refusal)
        → IsAccepted limits text v n → ¬ IsRefused limits text refusal }
    ensures accepted_or_truncated { (limits : Limits) (text : List ℕ) (v : TransmissionValue) (n records : ℕ)
        → IsAccepted limits text v n → ¬ IsTruncated limits text records }
    ensures refused_or_truncated { (limits : Limits) (text : List ℕ) (refusal : Refusal) (records : ℕ)
        → IsRefused limits text refusal → ¬ IsTruncated limits text records }
    ensures refused_once { (limits : Limits) (text : List ℕ) (refusal other : Refusal)
        → IsRefused limits text refusal → IsRefused limits text other → refusal ≡ other }
    ensures truncated_once { (limits : Limits) (text : List ℕ) (records others : ℕ)
        → IsTruncated limits text records → IsTruncated limits text others → records ≡ others }
{}

/// Each text has one of the three ends: one that is neither accepted nor refused is truncated, with as many lines as it has. The
/// limits are in the ranges that `Limits::new` takes.
pub fn each_text_has_an_end()
    ensures { (limits : Limits) (text : List ℕ) → AreInRange limits → IsNotAccepted limits text
        → IsNotRefused limits text → IsTruncated limits text (length (raw_lines (closed text))) }
{}

/// Some transmission within the limits continues from lines and from the first cells of one more exactly where the lines
/// are those of records, each of its row, these cells are good, and the order and the limits let a record with such a
/// symbol come.
pub fn viable_where_cells_are_good()
    ensures { (limits : LimitValues) (before : List (List ℕ)) (line : List ℕ) (m : ℕ)
        → Viable limits before line (suc m) ↔ ContinuesFrom limits before line m }
{}

/// Over a whole run at most 1,025 bytes are used for each record that the limits hold: no decoder represents more.
pub fn used_bytes_are_bounded()
    ensures { UsedBytesAreBounded }
{}

/// Whatever a decoder was fed, it holds at most 1,024 bytes of a line, and no more records of a transaction than the limit.
pub fn what_is_held_is_bounded(decoder: &Decoder) -> (usize, usize)
    ensures line { result.0 ≡ length decoder.now.line.bytes }
    ensures transaction { result.1 ≡ length (held_list decoder.now.held) }
    ensures bounded { (result.0 ≤ 1024) × (result.1 ≤ decoder.now.tally.limits.transaction) }
{
    decoder.holds()
}

/// The items that a decoder handed out are the first of those of some transmission within its limits: a transaction is a
/// whole one of its group's type, and each comes in its place.
pub fn items_are_the_first()
    ensures { ItemsAreTheFirst }
{}

/// The items that a decoder handed out from the front of a text that is accepted are the first of that transmission's,
/// however much of the text it has had.
pub fn items_begin_the_accepted()
    ensures { ItemsBeginTheAccepted }
{}
