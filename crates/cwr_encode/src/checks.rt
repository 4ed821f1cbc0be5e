//! What an encoder asks of a transaction before it takes it.

ghost use Rattle.std.specs.Prelude.{◌≡◌, ◌↔◌, List, [], ◌∷◌, ◌++◌, IsTrue};
ghost use Rattle.cwr_fields.specs.declared.kinds.Kind.TheVariants.{Grt};
ghost use Rattle.cwr_shape.specs.declared.symbols.Symbol.{Symbol};
ghost use Rattle.cwr_shape.specs.declared.symbols.Symbol.TheVariants.{Plain};
ghost use Rattle.cwr_shape.specs.Format.AnyTransmission.{Any};
ghost use Rattle.cwr_shape.specs.Steps.Left.{StandsAt};
ghost use Rattle.cwr_shape.specs.Format.Outlines.{Continues};
ghost use Rattle.cwr_shape.specs.Steps.Tallies.{KeepsTally};
ghost use Rattle.cwr_encode.specs.Steps.Encoders.{passed_with};

use cwr_fields::Kind;
use cwr_shape::{LimitKind, Stage, Symbol, Tally};

/// Whether a group may end at the stage.
pub(crate) fn group_may_end(stage: Stage) -> bool
    ensures { (xs : List Symbol) → StandsAt xs stage → IsTrue result
        ↔ Continues Any (xs ++ Plain Grt ∷ []) }
{
    stage.next(Symbol::Plain(Kind::Grt)).is_some()
}

/// The first limit that is passed with a transaction of so many records more, and GRT and TRL.
pub(crate) fn limit_passed(tally: &Tally, records: usize) -> Option<LimitKind>
    ensures value { result ≡ passed_with tally.now records }
    ensures kept { KeepsTally tally.now }
{
    let limits = tally.limits();
    let others = tally.records() as usize + 2;
    if others.saturating_add(records) > limits.records() as usize {
        Some(LimitKind::Records)
    } else if records > limits.transaction() as usize {
        Some(LimitKind::Transaction)
    } else {
        None
    }
}
