// Dates and times moved by a signed number of minutes.
ghost use Rattle.std.specs.Prelude.{◌≡◌, ◌≤◌, ◌<◌, nat_abs};
ghost use Rattle.integers.specs.Floor.{floor_div, floor_mod};
ghost use Rattle.ion.specs.Calendar.Dates.{IsDate};
ghost use Rattle.ion.specs.Calendar.Shift.{IsDateTime, add_days, at_minute, shifted};

use crate::day::{next_day, prev_day};
use ion::offset::OffsetMinutes;
use ion::{Date, DateTime};

// The whole days in a number of minutes, rounded down.
pub fn floor_days(minutes: i32) -> i32
    ensures { result ≡ floor_div minutes 1440 }
{
    minutes.div_euclid(1440)
}

// The minutes past the last midnight.
pub fn minute_of_day(minutes: i32) -> u32
    ensures { result ≡ floor_mod minutes 1440 }
{
    minutes.rem_euclid(1440) as u32
}

// The date a day later, the same or a day earlier.
#[tactic(auto, using(crate::proofs::Shifts::back))]
fn add_days(date: Date, days: i32) -> Date
    requires { (nat_abs days ≤ 1) × (date.year ≤ 10000) × IsDate date }
    ensures { result ≡ add_days date days }
{
    if days < 0 {
        prev_day(date)
    } else if 0 < days {
        next_day(date)
    } else {
        date
    }
}

// A date with the time of a minute of its day.
fn at_minute(date: Date, minute: u32) -> DateTime
    ensures { result ≡ at_minute date minute }
{
    let Date { year, month, day } = date;
    DateTime {
        year,
        month,
        day,
        hour: minute / 60,
        minute: minute % 60,
    }
}

// The date and time an offset later. Where the day stays, the date is not looked at.
pub fn add_offset_to_utc(t: DateTime, offset: OffsetMinutes) -> DateTime
    requires { (t.year ≤ 10000) × IsDateTime t × (nat_abs offset.0 < 1440) }
    ensures { result ≡ shifted t offset.0 }
{
    let total = (t.hour * 60 + t.minute) as i32 + offset.minutes();
    if (0..1440).contains(&total) {
        at_minute(t.date(), total as u32)
    } else {
        at_minute(add_days(t.date(), floor_days(total)), minute_of_day(total))
    }
}
