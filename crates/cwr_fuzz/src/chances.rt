//! Numbers that are drawn, the same for each seed.

use rand_core::Rng;
use rand_pcg::Pcg32;

/// Draws numbers.
#[derive(Drop)]
pub struct Chance {
    generator: Pcg32,
}

impl Chance {
    /// For one input of a seed.
    pub fn new(seed: u64, input: u64) -> Chance {
        Chance {
            generator: Pcg32::new(seed, input),
        }
    }

    /// A number below `count`, and 0 where that is 0.
    pub fn below(&mut self, count: usize) -> usize {
        let drawn = self.generator.next_u32() as usize;
        drawn.checked_rem(count).unwrap_or(0)
    }

    /// The same of numbers of records and the like.
    pub fn number_below(&mut self, count: u32) -> u32 {
        self.generator.next_u32().checked_rem(count).unwrap_or(0)
    }

    /// One of some values.
    pub fn one_of<'a, T>(&mut self, values: &'a [T]) -> Option<&'a T> {
        values.get(self.below(values.len()))
    }

    /// Whether one in so many times it is so.
    pub fn is_one_in(&mut self, count: usize) -> bool {
        self.below(count) == 0
    }
}
