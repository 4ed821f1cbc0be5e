//! Times of day as values.

ghost use Rattle.std.specs.Prelude.{◌≡◌, ◌↔◌, ◌<◌, IsSome, IfSome, length};

use crate::byte_runs::{three_numbers, write_three};
use crate::cell_types::CellType;
use crate::typed_cells::Cell;

/// A time of day, to the second.
#[derive(Clone, Copy, Debug, PartialEq, Eq, PartialOrd, Ord, Hash)]
pub struct TimeOfDay {
    hour: u8,
    minute: u8,
    second: u8,
    ghost hours: { hour < 24 },
    ghost minutes: { minute < 60 },
    ghost seconds: { second < 60 },
}

impl TimeOfDay {
    /// The time of day. `None` for an hour above 23, and for a minute or a second above 59.
    pub fn new(hour: u8, minute: u8, second: u8) -> Option<TimeOfDay>
        ensures some { IsSome result ↔ ((hour < 24) × (minute < 60) × (second < 60)) }
        ensures value { IfSome result
            (λ t. (t.hour ≡ hour) × (t.minute ≡ minute) × (t.second ≡ second)) }
    {
        if hour < 24 && minute < 60 && second < 60 {
            Some(TimeOfDay {
                hour,
                minute,
                second,
            })
        } else {
            None
        }
    }

    /// The hour, from 0 to 23.
    pub fn hour(self) -> u8
        ensures { result ≡ self.hour }
    {
        self.hour
    }

    /// The minute, from 0 to 59.
    pub fn minute(self) -> u8
        ensures { result ≡ self.minute }
    {
        self.minute
    }

    /// The second, from 0 to 59.
    pub fn second(self) -> u8
        ensures { result ≡ self.second }
    {
        self.second
    }
}

impl Cell for TimeOfDay {
    ghost use Rattle.cwr_fields.specs.declared.cell_types.CellType.TheVariants as types;
    ghost use Rattle.cwr_fields.specs.Format.TimeLaws.{time_text, time_width, time_fits, time_equal};
    ghost use Rattle.std.proofs.Common.{arith};
    ghost use Rattle.std.specs.Coded.{le_prop};
    ghost use mathlib.Core.HLevel.{is_prop→PathP};

    const TYPE: CellType = CellType::Time;

    const WIDTH: usize = 6;

    ghost TYPE = { types.Time };

    ghost WIDTH = { 6 };

    ghost text = { λ t. time_text t.hour t.minute t.second };

    fn read(cell: &[u8]) -> Option<TimeOfDay> {
        if cell.len() != 6 {
            return None;
        }
        let (hour, minute, second) = three_numbers(2, cell)?;
        TimeOfDay::new(hour as u8, minute as u8, second as u8)
    }

    fn write(&self, cell: &mut [u8]) {
        let TimeOfDay {
            hour,
            minute,
            second,
        } = *self;
        let numbers = (hour.into(), minute.into(), second.into());
        write_three(cell, 2, numbers);
    }

    ghost width = { λ t. time_width t.hour t.minute t.second };

    ghost fits = { λ t. time_fits 24 t.hour t.minute t.second t.hours t.minutes t.seconds };

    ghost equal = { λ x y e. let same = time_equal 24 x.hour x.minute x.second y.hour y.minute y.second (Prim.omega arith) x.hours x.minutes x.seconds y.hours y.minutes y.seconds e in
        λ i. record {
          hour = same.0 i;
          minute = same.1 i;
          second = same.2 i;
          hours = is_prop→PathP (λ j. same.0 j < 24) (λ j. le_prop) x.hours y.hours i;
          minutes = is_prop→PathP (λ j. same.1 j < 60) (λ j. le_prop) x.minutes y.minutes i;
          seconds = is_prop→PathP (λ j. same.2 j < 60) (λ j. le_prop) x.seconds y.seconds i;
        } };
}
