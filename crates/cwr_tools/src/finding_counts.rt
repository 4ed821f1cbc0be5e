//! How many findings were told, and whether one has a level, or a worse one.

ghost use Rattle.std.specs.Prelude.{◌≡◌, ◌+◌, ◌-◌, ◌^◌, ◌||◌, length, min, None, Option};
ghost use Rattle.cwr_shape.specs.declared.reasons.Level.{Level};
ghost use Rattle.cwr_tools.specs.Format.Watching.{has_from, is_reached, is_reached_by, reach};

use cwr_findings::Finding;
use cwr_shape::Level;

/// How far what a level rejects goes: from 0 for a field to 4 for a file.
fn reach(level: Level) -> u8
    ensures { result ≡ reach level }
{
    match level {
        Level::F => 0,
        Level::R => 1,
        Level::T => 2,
        Level::G => 3,
        Level::E => 4,
    }
}

/// The worse one of two levels.
fn worse(worst: Option<Level>, level: Level) -> Level
    ensures { (asked : Option Level)
        → is_reached asked (Some result) ≡ (is_reached asked worst || is_reached_by asked level) }
{
    match worst {
        Some(worst) if reach(level) <= reach(worst) => worst,
        _ => level,
    }
}

/// How many findings were told, and how much the worst one rejects.
#[derive(Clone, Copy, Debug, PartialEq, Eq)]
pub struct FindingCount {
    /// How many. It stays at `u64::MAX`.
    pub findings: u64,
    /// The worst level of one.
    pub worst: Option<Level>,
}

impl FindingCount {
    /// None was.
    pub fn new() -> FindingCount
        ensures none { result.findings ≡ 0 }
        ensures worst { result.worst ≡ None }
    {
        FindingCount {
            findings: 0,
            worst: None,
        }
    }

    /// Whether one has the level, or a worse one; where no level is given, none has.
    pub fn reaches(&self, from: Option<Level>) -> bool
        ensures { result ≡ is_reached from self.now.worst }
    {
        match (from, self.worst) {
            (Some(from), Some(worst)) => reach(from) <= reach(worst),
            _ => false,
        }
    }

    /// These are.
    pub(crate) fn add(&mut self, found: &[Finding])
        ensures counted { self.new.findings ≡ min (self.old.findings + length found.now) (2 ^ 64 - 1) }
        ensures worst { (asked : Option Level) → is_reached asked self.new.worst
            ≡ (is_reached asked self.old.worst || has_from asked found.now) }
    {
        self.findings = self.findings.saturating_add(found.len() as u64);
        let mut i = 0;
        while let Some(finding) = found.get(i) {
            self.worst = Some(worse(self.worst, finding.level));
            i += 1;
        }
    }
}
