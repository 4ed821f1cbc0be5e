//! What is kept of the records of a transaction in place of them, so that one of which nothing is told is passed over.

ghost use Rattle.std.specs.Prelude.{◌≡◌, ◌++◌, ◌∷◌, [], List, IsTrue};

use cwr_advice::AdviceSums;
use cwr_decode::Keeper;
use cwr_findings::Sums;
use cwr_lines::RecordRef;

/// What is kept of the records of a transaction in place of them. It tells of most transactions that surely there is neither a finding
/// in them nor advice on them.
#[derive(Drop)]
pub struct AdvisedSums {
    findings: Sums,
    advice: AdviceSums,
}

impl AdvisedSums {
    /// Of no transaction.
    pub(crate) fn new() -> AdvisedSums {
        AdvisedSums {
            findings: Sums::new(),
            advice: AdviceSums::new(),
        }
    }
}

impl Keeper for AdvisedSums {
    ghost use Rattle.std.specs.Prelude.{◌≡◌, []};
    ghost use Rattle.cwr_findings.specs.Format.Findings.{findings};
    ghost use Rattle.cwr_findings.specs.Steps.Sums.{StandFor};
    ghost use Rattle.cwr_advice.specs.declared.said.Said.{Said};
    ghost use Rattle.cwr_advice.specs.Format.Rules.{advice_of};
    ghost use Rattle.cwr_advice.specs.Steps.Kept.{StandsFor};

    ghost stands_for = { λ kept records. StandFor kept.findings records × StandsFor kept.advice records };

    ghost are_clean = { λ records. (findings records ≡ []) × ((said : Said) → advice_of said records ≡ []) };

    fn begin(&mut self, header: &RecordRef<'_>) -> bool {
        if !self.findings.begin(header) {
            return false;
        }
        self.advice.begin(header)
    }

    fn add<A>(&mut self, next: &RecordRef<'_>) -> bool {
        // An instance of its own, so that the other keeper's has one caller too.
        if !self.findings.add::<(A, Self)>(next) {
            return false;
        }
        self.advice.add(next)
    }

    fn is_clean(&self) -> bool {
        self.findings.is_clean() && self.advice.is_clean()
    }
}
