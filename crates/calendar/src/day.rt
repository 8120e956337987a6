// The number of a day, counted from 0000-01-01, and the days after and before it. That a date is one stays a fact in contracts: as
// a type it would keep `is_date` and the builder from holding a date that is none.
ghost use Rattle.std.specs.Prelude.{◌≡◌, ◌≤◌};
ghost use Rattle.ion.specs.Calendar.Dates.{IsDate, year_start, day_number, next_day, prev_day};

use crate::month::month_length;
use ion::Date;
use year_table::year_starts;

// The number of 1 January in closed form: years of 365 days, and a day for each leap year before.
#[tactic(auto, using(crate::proofs::Years::year_starts), unfolding(crate::proofs::Years::leaps_before))]
fn late_year_start(year: u32) -> u64
    ensures { result ≡ year_start year }
{
    let y = year as u64;
    let centuries = (y + 99) / 100;
    365 * y + (y + 3) / 4 - centuries + (centuries + 3) / 4
}

// The number of 1 January: the table's up to year 10000.
#[tactic(auto, using(year_table::proofs::Entries::start_at, year_table::proofs::Entries::starts_length))]
pub fn year_start(year: u32) -> u64
    ensures { result ≡ year_start year }
{
    match year_starts().get(year as usize) {
        Some(&start) => start as u64,
        None => late_year_start(year),
    }
}

// By month, 1 being January: the days before it in a year that is no leap year.
const MONTH_STARTS: [u16; 13] = [0, 0, 31, 59, 90, 120, 151, 181, 212, 243, 273, 304, 334];

// The number of a day. From March on as many days are left in every year, and it is counted from the next year's start.
#[tactic(auto, using(crate::proofs::Dates::numbers))]
pub fn day_number(date: Date) -> u64
    requires { (date.year ≤ 9999) × IsDate date }
    ensures { result ≡ day_number date }
{
    let year = date.year as usize;
    let (from, back) = if 2 < date.month {
        (year + 1, 366)
    } else {
        (year, 1)
    };
    let before = MONTH_STARTS[date.month as usize] as u64;
    year_starts()[from] as u64 + before + date.day as u64 - back
}

#[tactic(auto, using(crate::proofs::Dates::dates))]
pub fn next_day(date: Date) -> Date
    requires { (date.year ≤ 10000) × IsDate date }
    ensures { result ≡ next_day date }
{
    if date.day < month_length(date.year, date.month) {
        Date {
            day: date.day + 1,
            ..date
        }
    } else if date.month < 12 {
        Date {
            month: date.month + 1,
            day: 1,
            ..date
        }
    } else {
        Date {
            year: date.year + 1,
            month: 1,
            day: 1,
        }
    }
}

// The day before; that of 0000-01-01 has year 0 too.
#[tactic(auto, using(crate::proofs::Dates::dates))]
pub fn prev_day(date: Date) -> Date
    requires { (date.year ≤ 10000) × IsDate date }
    ensures { result ≡ prev_day date }
{
    if 1 < date.day {
        Date {
            day: date.day - 1,
            ..date
        }
    } else if 1 < date.month {
        let month = date.month - 1;
        Date {
            month,
            day: month_length(date.year, month),
            ..date
        }
    } else {
        Date {
            year: date.year.saturating_sub(1),
            month: 12,
            day: 31,
        }
    }
}
