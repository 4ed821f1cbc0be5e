//! The sums of several files that are read one after another.

ghost use Rattle.std.specs.Prelude.{◌≡◌, [], ◌∷◌, ◌++◌, List, Option, None, Some, IfOk, string_bytes};
ghost use Rattle.cwr_endings.specs.Format.Endings.{worse_status};
ghost use Rattle.cwr_endings.specs.Format.Sums.{AreSums, sums_line};
ghost use Rattle.cwr_tools.specs.declared.verdicts.Verdict.{Verdict};

use crate::endings::Status;
use crate::judgements::Judgement;
use cwr_tools::Verdict;
use std::alloc::{AllocError, Global};

/// How many files had which verdict.
#[derive(Clone, Copy, Debug)]
pub struct Sums {
    good: u64,
    refused: u64,
    truncated: u64,
    failed: u64,
    /// The worst status.
    pub status: Status,
}

impl Sums {
    /// No file was judged.
    pub fn new() -> Sums
        ensures status { result.status ≡ Status.Good }
        ensures sums { AreSums result [] }
    {
        Sums {
            good: 0,
            refused: 0,
            truncated: 0,
            failed: 0,
            status: Status::Good,
        }
    }

    /// Counts a file that was judged.
    pub fn count(&mut self, judgement: &Judgement)
        ensures status { self.new.status ≡ worse_status self.old.status judgement.now.status }
        ensures sums { (ends : List (Option Verdict)) → AreSums self.old ends
            → AreSums self.new (ends ++ Some judgement.now.verdict ∷ []) }
    {
        self.status = self.status.or_worse(judgement.status);
        self.count_verdict(&judgement.verdict);
    }

    /// Counts the verdict on a file.
    fn count_verdict(&mut self, verdict: &Verdict)
        ensures status { self.new.status ≡ self.old.status }
        ensures sums { (ends : List (Option Verdict)) → AreSums self.old ends → AreSums self.new (ends ++ Some verdict.now ∷ []) }
    {
        match verdict {
            Verdict::Good { .. } => self.good = self.good.saturating_add(1),
            Verdict::Refused(_) => self.refused = self.refused.saturating_add(1),
            Verdict::Truncated { .. } => self.truncated = self.truncated.saturating_add(1),
        }
    }

    /// Counts a file that failed.
    pub fn count_failed(&mut self)
        ensures status { self.new.status ≡ Status.Fault }
        ensures sums { (ends : List (Option Verdict)) → AreSums self.old ends → AreSums self.new (ends ++ None ∷ []) }
    {
        self.failed = self.failed.saturating_add(1);
        self.status = Status::Fault;
    }

    /// The line of the sums.
    pub fn line(&self, alloc: Global, files: usize) -> Result<String, AllocError>
        ensures { IfOk result (λ line. (ends : List (Option Verdict)) → AreSums self.now ends
            → string_bytes line ≡ sums_line files ends) }
    {
        let Sums {
            good,
            refused,
            truncated,
            failed,
            ..
        } = self;
        format!(in alloc;
            "FILES {files} good {good} refused {refused} truncated {truncated} failed {failed}\n"
        )
    }
}
