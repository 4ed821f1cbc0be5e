//! How much advice comes from each rule, and which of it is told.

ghost use Rattle.std.specs.Prelude.{◌≡◌, [], slice_index};
ghost use Rattle.cwr_advice.specs.Format.RuleOrder.{place_of_rule};
ghost use Rattle.cwr_advise.specs.Steps.AdviceCounts.{AddsSummary, counts_of, counts_with, is_told_by};
ghost use Rattle.cwr_advise.specs.Steps.KeptWorks.{counts_with_repeated, shown_repeated};

use crate::advice_texts::{MOST_TOLD, summary_line};
use crate::repeats::Repeated;
use cwr_advice::{AdviceRule, RULE_COUNT, rule_at};
use cwr_devices::{Pen, Target};
use std::marker::Model;

/// How much advice came from each rule.
#[derive(Drop)]
pub struct AdviceCounts {
    /// How many pieces, by the place of the rule. Each number stays at `u64::MAX`.
    counts: [u64; RULE_COUNT],
}

impl Model for AdviceCounts {
    ghost use Rattle.std.specs.Prelude.{◌≡◌, ℕ, List, length};

    ghost Value = { List ℕ };

    ghost view = { λ c. c.counts };

    ghost invariant = { λ c. length c.counts ≡ 32 };
}

impl AdviceCounts {
    /// No advice came.
    pub fn nothing() -> AdviceCounts
        ensures { result ≡ counts_of [] }
    {
        AdviceCounts {
            counts: [0; RULE_COUNT],
        }
    }

    /// The same counts.
    pub(crate) fn copy(&self) -> AdviceCounts
        ensures { result ≡ self.now }
    {
        AdviceCounts {
            counts: self.counts,
        }
    }

    /// How many pieces came from a rule.
    pub fn of(&self, rule: AdviceRule) -> u64
        ensures { result ≡ slice_index self.now (place_of_rule rule) }
    {
        self.counts[rule.place()]
    }

    /// Whether the next piece from a rule is told, where all advice is told or not.
    fn tells(&self, all: bool, rule: AdviceRule) -> bool
        ensures { result ≡ is_told_by all self.now rule }
    {
        all || self.of(rule) < MOST_TOLD
    }

    /// Counts a piece from a rule.
    fn count(&mut self, rule: AdviceRule)
        ensures { self.new ≡ counts_with self.old rule }
    {
        let more = self.of(rule).saturating_add(1);
        self.counts[rule.place()] = more;
    }

    /// Counts a piece from a rule, and says whether it is told, where all advice is told or not.
    pub(crate) fn take(&mut self, all: bool, rule: AdviceRule) -> bool
        ensures told { result ≡ is_told_by all self.old rule }
        ensures counted { self.new ≡ counts_with self.old rule }
    {
        let is_told = self.tells(all, rule);
        self.count(rule);
        is_told
    }

    /// Counts a work whose number stands in a work before, if it is one, and answers what is told of it.
    pub(crate) fn take_repeated(&mut self, all: bool, repeated: &Repeated) -> Repeated
        ensures told { result ≡ shown_repeated all self.old repeated.now }
        ensures counted { self.new ≡ counts_with_repeated self.old repeated.now }
    {
        match repeated.first {
            None => *repeated,
            Some(_) => match self.take(all, AdviceRule::A5a) {
                true => *repeated,
                false => Repeated {
                    first: None,
                    is_beyond: repeated.is_beyond,
                },
            },
        }
    }

    /// Adds how many pieces came from each rule, where not all of them were told.
    pub fn summary<W: Target>(&self, all: bool, pen: &mut Pen<'_, W>)
        ensures { AddsSummary W.contents W.failures all self.now pen.old pen.new }
    {
        let mut i = 0;
        while let Some(rule) = rule_at(i) {
            summary_line(all, rule, self.of(rule), pen);
            i += 1;
        }
    }
}
