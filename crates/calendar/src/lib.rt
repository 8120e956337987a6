// The proleptic Gregorian calendar, and dates and times moved by an offset.
#![tactic(auto)]

mod day;
mod month;
mod shift;

pub use day::{day_number, next_day, prev_day, year_start};
pub use month::{days_in_month, is_date, is_leap};
pub use shift::{add_offset_to_utc, floor_days, minute_of_day};
