//! Laws over what is written of some records.

ghost use Rattle.std.specs.Prelude.{◌≡◌, ℕ, List, map};
ghost use Rattle.std.specs.List.{AllByRecursion};
ghost use Rattle.cwr_lines.specs.Format.Records.{RecordValue, IsRecord};
ghost use Rattle.cwr_shape.specs.declared.limits.Limits.{Limits};
ghost use Rattle.cwr_shape.specs.Format.Outlines.{IsWithin, Continues};
ghost use Rattle.cwr_values.specs.Format.Values.{symbol_of};
ghost use Rattle.cwr_encode.specs.Format.Encoders.{JudgesFoot, JudgesGroup, JudgesOpening, part_of};
ghost use Rattle.cwr_encode.specs.Format.Written.{IsPart};
ghost use Rattle.cwr_encode.specs.Steps.Laws.{IsNoMistakeWith, WholeTransactionIsNoMistake};

use cwr_fields::Kind;

/// Records in order, with whose symbols a transmission within the limits begins, begin such a transmission, and what
/// is written of them is the canonical text of its rows so far.
pub fn accepted_records_have_a_part()
    ensures { (limits : Limits) (records : List RecordValue) → AllByRecursion IsRecord records → Continues (IsWithin limits) (map symbol_of records)
        → IsPart limits records (part_of records) }
{}

/// What is written of some records depends on them alone: it is the same whatever transmission they begin.
pub fn part_depends_on_its_records()
    ensures { (limits others : Limits) (records : List RecordValue) (text other : List ℕ) → IsPart limits records text → IsPart others records other
        → text ≡ other }
{}

/// A call that adds records with which some transmission continues is no mistake of the caller: only a limit can refuse
/// it, or the writer fail. The records are those of a tally, and the call is judged by them. A transaction is one of the
/// open group's type: an agreement or a work after an acknowledgement is its copy, and handed over with it.
pub fn calls_that_continue_are_no_mistakes()
    ensures opening { IsNoMistakeWith Kind.Hdr JudgesOpening }
    ensures group { IsNoMistakeWith Kind.Grh JudgesGroup }
    ensures transaction { WholeTransactionIsNoMistake }
    ensures foot { IsNoMistakeWith Kind.Grt JudgesFoot }
{}
