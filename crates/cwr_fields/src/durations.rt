//! Durations as values.

ghost use Rattle.std.specs.Prelude.{◌≡◌, ◌↔◌, ◌<◌, ◌+◌, ◌*◌, IsSome, IfSome};

use crate::byte_runs::{is_spaces, three_numbers, write_three};
use crate::cell_types::CellType;
use crate::typed_cells::Cell;

/// How long a work or a recording plays: at most 99 hours, 59 minutes and 59 seconds.
#[derive(Clone, Copy, Debug, PartialEq, Eq, PartialOrd, Ord, Hash)]
pub struct PlayingTime {
    hours: u8,
    minutes: u8,
    seconds: u8,
    ghost most_hours: { hours < 100 },
    ghost most_minutes: { minutes < 60 },
    ghost most_seconds: { seconds < 60 },
}

impl PlayingTime {
    /// The duration. `None` for more than 99 hours, and for more than 59 minutes or seconds beyond them.
    pub fn new(hours: u8, minutes: u8, seconds: u8) -> Option<PlayingTime>
        ensures some { IsSome result ↔ ((hours < 100) × (minutes < 60) × (seconds < 60)) }
        ensures value { IfSome result
            (λ t. (t.hours ≡ hours) × (t.minutes ≡ minutes) × (t.seconds ≡ seconds)) }
    {
        if hours < 100 && minutes < 60 && seconds < 60 {
            Some(PlayingTime {
                hours,
                minutes,
                seconds,
            })
        } else {
            None
        }
    }

    /// Its whole hours, from 0 to 99.
    pub fn hours(self) -> u8
        ensures { result ≡ self.hours }
    {
        self.hours
    }

    /// Its minutes beyond whole hours, from 0 to 59.
    pub fn minutes(self) -> u8
        ensures { result ≡ self.minutes }
    {
        self.minutes
    }

    /// Its seconds beyond whole minutes, from 0 to 59.
    pub fn seconds(self) -> u8
        ensures { result ≡ self.seconds }
    {
        self.seconds
    }

    /// The whole of it in seconds.
    pub fn total_seconds(self) -> u32
        ensures { result ≡ 3600 * self.hours + 60 * self.minutes + self.seconds }
    {
        3600 * u32::from(self.hours()) + 60 * u32::from(self.minutes()) + u32::from(self.seconds())
    }
}

/// What a cell says of a duration: nothing, or how long it is. Nothing and `000000` are different values.
#[derive(Clone, Copy, Debug, PartialEq, Eq)]
pub enum DurationCell {
    /// Spaces.
    Blank,
    /// A duration.
    Lasting(PlayingTime),
}

impl Cell for DurationCell {
    ghost use Rattle.cwr_fields.specs.declared.cell_types.CellType.TheVariants as types;
    ghost use Rattle.cwr_fields.specs.Format.DurationCells.{duration_text, duration_width, duration_fits, duration_equal};

    const TYPE: CellType = CellType::OptDuration;

    const WIDTH: usize = 6;

    ghost TYPE = { types.OptDuration };

    ghost WIDTH = { 6 };

    ghost text = { duration_text };

    fn read(cell: &[u8]) -> Option<DurationCell> {
        if cell.len() != 6 {
            return None;
        }
        if is_spaces(cell) {
            return Some(DurationCell::Blank);
        }
        let (hours, minutes, seconds) = three_numbers(2, cell)?;
        let time = PlayingTime::new(hours as u8, minutes as u8, seconds as u8)?;
        Some(DurationCell::Lasting(time))
    }

    fn write(&self, cell: &mut [u8]) {
        match self {
            DurationCell::Blank => cell.fill(b' '),
            DurationCell::Lasting(time) => {
                let numbers = (time.hours.into(), time.minutes.into(), time.seconds.into());
                write_three(cell, 2, numbers);
            }
        }
    }

    ghost width = { duration_width };

    ghost fits = { duration_fits };

    ghost equal = { duration_equal };
}
