//! Laws over the definitions.

ghost use Rattle.std.specs.Prelude.{◌≡◌, ◌-◌, List, ℕ, length, IsSome, OnSome, slice_get};
ghost use Rattle.cwr_lines.specs.Format.Carried.{carried_at, record_cell, ShowsSet};
ghost use Rattle.cwr_lines.specs.Steps.Held.{HeldLine, HoldsLine, IsCutAs, IsHeld};
ghost use Rattle.cwr_lines.specs.Format.Records.{RecordValue, IsRecord, carried_fields, row_of};

/// What a line buffer took of a line of a text has the kind, the cells and the excess of that line: of the whole line
/// where it has at most 1,024 bytes before its line feed, and else of its first 1,024 bytes.
pub fn held_line_is_cut()
    ensures { (h : HeldLine) (line : List ℕ) → IsHeld h → HoldsLine h line → IsCutAs h line }
{}

/// A record's cell of a carried field is the cell of that field in the record's row, whatever numbers the row has.
pub fn cells_are_those_of_rows()
    ensures { (r : RecordValue) (numbers : List ℕ) (j : ℕ) → IsRecord r
        → OnSome (carried_at r.kind j) (record_cell r j ≡ slice_get (row_of numbers r).cells (j - 1)) }
{}

/// A record in which the cell of a carried field is set shows it there, and all other cells as before.
pub fn set_cells_are_shown()
    ensures { (r : RecordValue) (j : ℕ) (text : List ℕ) → length r.cells ≡ length (carried_fields r.kind)
        → IsSome (carried_at r.kind j) → ShowsSet r j text }
{}
