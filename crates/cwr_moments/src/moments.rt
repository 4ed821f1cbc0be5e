//! A second of a day.

ghost use Rattle.std.specs.Prelude.{◌≡◌, ◌↔◌, ◌+◌, ◌<◌, IsSome, IfSome};
ghost use Rattle.cwr_moments.specs.Format.Moments.{moment_cells, moment_text, second_of_day};

use cwr_fields::{Cell, CivilDate, TimeOfDay};

/// The seconds of a day.
const DAY: u32 = 86_400;

/// A second of a day.
#[derive(Clone, Copy, Debug, PartialEq, Eq)]
pub struct Moment {
    /// The day.
    pub date: CivilDate,
    /// The time of that day.
    pub time: TimeOfDay,
}

impl Moment {
    /// The moment that a text is, as `20240131T093000`. `None` where it is none.
    pub fn read(text: &str) -> Option<Moment>
        ensures { IfSome result (λ moment. moment_text moment ≡ text.now) }
    {
        let bytes = text.as_bytes();
        if bytes.len() != 15 || bytes[8] != b'T' {
            return None;
        }
        Some(Moment {
            date: CivilDate::read(&bytes[..8])?,
            time: TimeOfDay::read(&bytes[9..])?,
        })
    }

    /// How many seconds of the day have gone.
    fn second_of_day(self) -> u32
        ensures value { result ≡ second_of_day self }
        ensures few { result < 86400 }
    {
        let hours = u32::from(self.time.hour());
        let minutes = u32::from(self.time.minute());
        hours * 3600 + minutes * 60 + u32::from(self.time.second())
    }

    /// The moment so many seconds later. `None` where the day ends before.
    pub fn later(self, seconds: u32) -> Option<Moment>
        ensures some { IsSome result ↔ second_of_day self + seconds < 86400 }
        ensures value { IfSome result (λ moment.
            (moment.date ≡ self.date) × (second_of_day moment ≡ second_of_day self + seconds)) }
    {
        let second = self.second_of_day();
        if seconds >= DAY - second {
            return None;
        }
        let second = second + seconds;
        let hour = (second / 3600) as u8;
        let minute = (second / 60 % 60) as u8;
        let time = TimeOfDay::new(hour, minute, (second % 60) as u8)?;
        Some(Moment {
            date: self.date,
            time,
        })
    }

    /// Its cells one after the other: the date, `YYYYMMDD`, and the time, `HHMMSS`.
    pub fn cells(self) -> [u8; 14]
        ensures { result ≡ moment_cells self }
    {
        let mut cells = [0; 14];
        let (date, time) = cells.split_at_mut(8);
        self.date.write(date);
        self.time.write(time);
        cells
    }
}
