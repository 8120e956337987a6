// Leap years, the lengths of months, and the days that there are.
ghost use Rattle.std.specs.Prelude.{◌≡◌, ◌≤◌};
ghost use Rattle.ion.specs.Calendar.Dates.{is_leap, is_month, month_length, days_in_month, is_date};

use ion::Date;

#[tactic(auto, unfolding(ion::specs::Calendar::Dates::is_leap))]
pub fn is_leap(year: u32) -> bool
    ensures { result ≡ is_leap year }
{
    year % 4 == 0 && (year % 100 != 0 || year % 400 == 0)
}

// By month, 1 being January: the days in a year that is no leap year.
const MONTH_LENGTHS: [u8; 13] = [0, 31, 28, 31, 30, 31, 30, 31, 31, 30, 31, 30, 31];

fn is_month(month: u32) -> bool
    ensures { result ≡ is_month month }
{
    (1..=12).contains(&month)
}

// The length of a month from 1 to 12, which is never 0.
#[tactic(auto, using(crate::proofs::Months::lengths))]
pub(crate) fn month_length(year: u32, month: u32) -> u32
    requires { (1 ≤ month) × (month ≤ 12) }
    ensures { result ≡ month_length year month }
{
    match month {
        2 if is_leap(year) => 29,
        2 => 28,
        _ => MONTH_LENGTHS[month as usize] as u32,
    }
}

// What a date picker is told: 0 for a month outside 1 to 12 and for a year above 10000.
#[tactic(auto, unfolding(ion::specs::Calendar::Dates::days_in_month))]
pub fn days_in_month(year: u32, month: u32) -> u32
    ensures { result ≡ days_in_month year month }
{
    if is_month(month) && year <= 10000 {
        month_length(year, month)
    } else {
        0
    }
}

// Whether there is such a day. Every month has 28 days: up to there the month's length is not asked.
#[tactic(auto, using(crate::proofs::Dates::days_there))]
pub fn is_date(date: Date) -> bool
    ensures { result ≡ is_date date }
{
    let Date { year, month, day } = date;
    is_month(month) && 1 <= day && (day <= 28 || day <= month_length(year, month))
}
