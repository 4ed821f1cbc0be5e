//! Laws over transmissions, their rows and the texts that spell them.

ghost use Rattle.std.specs.Prelude.{Contains, List, None, length, map, ℕ, ◌++◌, ◌≡◌, ◌↔◌, ◌<◌};
ghost use Rattle.std.specs.List.{AllByRecursion};
ghost use Rattle.cwr_lines.specs.Format.Lines.{IsLineOf};
ghost use Rattle.cwr_lines.specs.Format.Records.{IsRecord, RecordValue, Row};
ghost use Rattle.cwr_shape.specs.Format.Outlines.{IsWhole};
ghost use Rattle.cwr_shape.specs.Format.UncarriedOrder.{IsUncarriedShape, IsUncopiedShape};
ghost use Rattle.cwr_shape.specs.declared.limits.Limits.{Limits};
ghost use Rattle.cwr_values.specs.Format.Begins.{rows_so_far};
ghost use Rattle.cwr_values.specs.Format.Fits.{value_fault};
ghost use Rattle.cwr_values.specs.Format.FormerOrders.{IsTransmissionIn};
ghost use Rattle.cwr_values.specs.Format.Laws.{BeginsWithSpelling, NumbersFitTheirFields, RecordsAreCompleted, RowsDependOnRecordsBefore};
ghost use Rattle.cwr_values.specs.Format.Rows.{canonical_text, records_of, rows, Spells};
ghost use Rattle.cwr_values.specs.Format.Values.{FitsIn, IsTransmission, symbol_of, TransmissionValue};

/// The canonical text of a transmission spells it.
pub fn canonical_text_spells()
    ensures { (v : TransmissionValue) → IsTransmission v → Spells v (canonical_text v) }
{}

/// A line represents at most one row that a transmission can have.
pub fn line_has_one_row()
    ensures { (v w : TransmissionValue) (r s : Row) (line : List ℕ) → IsTransmission v → IsTransmission w
        → Contains (rows v) r → Contains (rows w) s → IsLineOf r line → IsLineOf s line → r ≡ s }
{}

/// A text begins with at most one spelling of at most one transmission. So no spelling is the beginning of another.
pub fn text_begins_with_one_spelling()
    ensures { (text front other : List ℕ) (v w : TransmissionValue) → BeginsWithSpelling text v front
        → BeginsWithSpelling text w other → (v ≡ w) × (front ≡ other) }
{}

/// Within limits of at most 99,999,999 records and 99,999 groups each number of a transmission fits its field.
pub fn numbers_fit_their_fields()
    ensures { NumbersFitTheirFields }
{}

/// No fault is reported of a transmission exactly where it has a group and is within the limits.
pub fn fits_is_within()
    ensures { (limits : Limits) (v : TransmissionValue) → (value_fault limits v ≡ None)
        ↔ ((0 < length v.groups) × FitsIn limits v) }
{}

/// Records that are each in order, and whose order is a whole one, are the records of a transmission, and of no other.
pub fn whole_records_are_a_transmission()
    ensures some { (records : List RecordValue) → AllByRecursion IsRecord records → IsWhole (map symbol_of records)
        → (v : TransmissionValue) × IsTransmission v × (records_of v ≡ records) }
    ensures no_other { (v w : TransmissionValue) → IsTransmission v → IsTransmission w
        → records_of v ≡ records_of w → v ≡ w }
{}

/// A row depends on its record and on the records before it alone: transmissions that begin with the same records
/// begin with the same rows, which are those that are counted as the records come.
pub fn rows_depend_on_records_before()
    ensures same { RowsDependOnRecordsBefore }
    ensures counted { (v : TransmissionValue) (before rest : List RecordValue) → IsTransmission v → records_of v ≡ before ++ rest
        → (more : List Row) × (rows v ≡ rows_so_far before ++ more) }
{}

/// Records in order, with whose symbols an outline begins, begin a transmission of that outline: for each further
/// symbol there is a record that fits.
pub fn records_are_completed()
    ensures { RecordsAreCompleted }
{}

/// Each transmission without copies, with carried records or without, is a transmission in today's order: the same value.
pub fn transmissions_in_former_orders_are_kept()
    ensures uncarried { (v : TransmissionValue) → IsTransmissionIn IsUncarriedShape v
        → IsTransmission v }
    ensures uncopied { (v : TransmissionValue) → IsTransmissionIn IsUncopiedShape v
        → IsTransmission v }
{}
