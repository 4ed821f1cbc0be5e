//! Laws over the order of records.

ghost use Rattle.std.specs.Prelude.{List, [], ◌++◌, ◌≡◌, ◌↔◌};
ghost use Rattle.cwr_shape.specs.Format.Laws.{NumbersDependOnRecordsBefore};
ghost use Rattle.cwr_shape.specs.Format.Outlines.{IsWhole};
ghost use Rattle.cwr_shape.specs.declared.symbols.Symbol.{Symbol};
ghost use Rattle.cwr_shape.specs.declared.stages.Stage.{Stage};
ghost use Rattle.cwr_shape.specs.Steps.Left.{StandsAt, LeavesAt};
ghost use Rattle.cwr_shape.specs.Format.Shapes.{IsShape};
ghost use Rattle.cwr_shape.specs.Format.UncarriedOrder.{IsUncarriedShape, IsUncarriedWhole, AreFormer, IsUncopiedShape, IsUncopiedWhole, AreUncopied};
ghost use Rattle.cwr_fields.specs.declared.codes.TransactionType.{TransactionType};

/// No whole transmission continues to another: after TRL nothing more belongs to it.
pub fn no_transmission_continues()
    ensures { (xs rest : List Symbol) → IsWhole xs → IsWhole (xs ++ rest) → rest ≡ [] }
{}

/// What makes records that stand at a stage a whole transmission is what is left at the stage.
pub fn stages_say_what_is_left()
    ensures { (xs : List Symbol) (stage : Stage) → StandsAt xs stage → LeavesAt xs stage }
{}

/// The numbers of a record depend on its kind and on the records before it alone: where two transmissions begin with
/// the same records and continue with one of the same kind, that one has the same numbers in both.
pub fn numbers_depend_on_records_before()
    ensures { NumbersDependOnRecordsBefore }
{}

/// Carried records and copies change no order without them: the records of a transaction among which none is carried,
/// and of an acknowledgement without a copy, are whole exactly where they are in the order that knows neither.
pub fn orders_without_carried_records_are_kept()
    ensures { (ty : TransactionType) (xs : List Symbol) → IsUncarriedShape ty xs
        ↔ (IsShape ty xs × AreFormer ty xs) }
{}

/// Each transmission without carried records and copies that was whole in the order that knows neither still is.
pub fn transmissions_without_carried_records_are_kept()
    ensures { (xs : List Symbol) → IsUncarriedWhole xs → IsWhole xs }
{}

/// Copies change no order without them, with carried records or without: the records of an acknowledgement in which no copy
/// begins are whole exactly where they are in the order that knows no copies, and any other transaction's are in both.
pub fn orders_without_copies_are_kept()
    ensures { (ty : TransactionType) (xs : List Symbol) → IsUncopiedShape ty xs
        ↔ (IsShape ty xs × AreUncopied ty xs) }
{}

/// Each transmission without copies that was whole in the order that knows none, with carried records or without, still is.
pub fn transmissions_without_copies_are_kept()
    ensures { (xs : List Symbol) → IsUncopiedWhole xs → IsWhole xs }
{}
