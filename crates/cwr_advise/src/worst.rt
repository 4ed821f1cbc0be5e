//! The worst level of what is told.

ghost use Rattle.std.specs.Prelude.{◌≡◌, ◌||◌, ◌&&◌, None, Option};
ghost use Rattle.std.specs.List.{list_any};
ghost use Rattle.std.specs.Option.{is_some};
ghost use Rattle.cwr_shape.specs.declared.reasons.Level.{Level};
ghost use Rattle.cwr_tools.specs.Format.Watching.{has_from, is_reached, is_reached_by};
ghost use Rattle.cwr_advise.specs.Format.AdviceLevels.{advice_reaches};
ghost use Rattle.cwr_advise.specs.Format.RepeatedWorks.{repeated_advice};

use crate::repeats::Repeated;
use cwr_advice::{Advice, AdviceRule};
use cwr_findings::Finding;
use cwr_shape::Level;
use cwr_tools::FindingCount;

/// The worst level of what was told: of findings, of advice, and of works whose numbers stand in works before them.
#[derive(Clone, Copy, Debug)]
pub(crate) struct Worst {
    /// None, where nothing was told.
    pub(crate) level: Option<Level>,
}

/// Whether the worst level, if there is one, is as bad as that one.
fn is_as_bad(worst: Option<Level>, level: Level) -> bool
    ensures { result ≡ is_reached (Option.Some level) worst }
{
    let told = FindingCount { findings: 0, worst };
    told.reaches(Some(level))
}

impl Worst {
    /// Nothing was told.
    pub(crate) fn nothing() -> Worst
        ensures { result.level ≡ None }
    {
        Worst { level: None }
    }

    /// Something of that level is told.
    fn see(&mut self, level: Level)
        ensures { (asked : Option Level) → is_reached asked self.new.level
            ≡ (is_reached asked self.old.level || is_reached_by asked level) }
    {
        if !is_as_bad(self.level, level) {
            self.level = Some(level);
        }
    }

    /// These findings are told.
    pub(crate) fn see_findings(&mut self, found: &[Finding])
        ensures { (asked : Option Level) → is_reached asked self.new.level
            ≡ (is_reached asked self.old.level || has_from asked found.now) }
    {
        let mut i = 0;
        while let Some(finding) = found.get(i) {
            self.see(finding.level);
            i += 1;
        }
    }

    /// This advice is told.
    pub(crate) fn see_advice(&mut self, found: &[Advice])
        ensures { (asked : Option Level) → is_reached asked self.new.level
            ≡ (is_reached asked self.old.level || list_any (advice_reaches asked) found.now) }
    {
        let mut i = 0;
        while let Some(advice) = found.get(i) {
            self.see(advice.rule.level());
            i += 1;
        }
    }

    /// This is told of a work among the works before it.
    pub(crate) fn see_repeated(&mut self, repeated: &Repeated)
        ensures { (asked : Option Level) → is_reached asked self.new.level
            ≡ (is_reached asked self.old.level || (is_some repeated.now.first && advice_reaches asked repeated_advice)) }
    {
        if repeated.first.is_some() {
            self.see(AdviceRule::A5a.level());
        }
    }
}
