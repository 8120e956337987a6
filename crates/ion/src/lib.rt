// The types of the library's calls. What each call answers is defined in specs/.
#![tactic(auto)]

pub mod number;
pub mod offset;
pub mod refusal;

ghost use Rattle.std.specs.Prelude.{◌≡◌};
ghost use Rattle.ion.specs.Calendar.Shift.{date_of};
ghost use Rattle.ion.specs.Calls.Accepted.{time_in};
ghost use Rattle.ion.specs.Calls.Build.{precision_number};
ghost use Rattle.ion.specs.Calls.Check.{precision_of, from_local};

pub use number::{NumberError, SignedMagnitude};
use offset::{OffsetMinutes, RawOffset};
pub use refusal::Refusal;
use std::cmp::Ordering;

// The attoseconds of a second: a fraction has fewer.
pub const MAX_ATTOSECONDS: u64 = 1_000_000_000_000_000_000;

// A timestamp is its packed pair. Anyone may hold a wrong pair: every call checks the pair it is given. No order or equality is
// derived: that of pairs is not that of instants, and crate `order` has both by name. Functions below a check require `Accepted`:
// a type for accepted timestamps would be made of each answer and taken apart in each contract.
#[derive(Clone, Copy)]
pub struct Timestamp {
    pub packed_fields: u64,
    pub attoseconds: u64,
}

// The fields of a packed word. The precision is 0 year, 1 month, 2 day, 3 hour and minute, 4 second: a number and no
// `TimestampPrecision`, since the word of a wrong pair may hold 5 to 7 too.
#[derive(Clone, Copy)]
pub struct Fields {
    pub year: u32,
    pub month: u32,
    pub day: u32,
    pub hour: u32,
    pub minute: u32,
    pub second: u32,
    pub precision: u32,
    pub digits: u32,
    pub offset: RawOffset,
}

impl Fields {
    // To the minute. The one place that copies them.
    pub fn time(self) -> DateTime
        ensures { result ≡ time_in self }
    {
        DateTime {
            year: self.year,
            month: self.month,
            day: self.day,
            hour: self.hour,
            minute: self.minute,
        }
    }
}

#[derive(Clone, Copy)]
pub struct Date {
    pub year: u32,
    pub month: u32,
    pub day: u32,
}

// A date and a time of its day, to the minute.
#[derive(Clone, Copy)]
pub struct DateTime {
    pub year: u32,
    pub month: u32,
    pub day: u32,
    pub hour: u32,
    pub minute: u32,
}

impl DateTime {
    pub fn date(self) -> Date
        ensures { result ≡ date_of self }
    {
        let DateTime {
            year,
            month,
            day,
            ..
        } = self;
        Date { year, month, day }
    }
}

// A fraction of a second: attoseconds, 10^18 for a second or more, and its number of digits.
#[derive(Clone, Copy)]
pub struct Fraction {
    pub attoseconds: u64,
    pub digits: u64,
}

// A coefficient with a sign, times a power of ten.
#[derive(Clone, Copy)]
pub struct Decimal {
    pub negative: bool,
    pub coefficient: u64,
    pub exponent: i64,
}

// The finest field that a timestamp tells.
#[derive(Clone, Copy)]
pub enum TimestampPrecision {
    Year,
    Month,
    Day,
    HourAndMinute,
    Second,
}

impl TimestampPrecision {
    pub fn number(self) -> u32
        ensures { result ≡ precision_number self }
    {
        self as u32
    }

    // By the number of a packed word: 5 to 7 read as 4.
    pub fn from_number(number: u32) -> TimestampPrecision
        ensures { result ≡ precision_of number }
    {
        match number {
            0 => TimestampPrecision::Year,
            1 => TimestampPrecision::Month,
            2 => TimestampPrecision::Day,
            3 => TimestampPrecision::HourAndMinute,
            _ => TimestampPrecision::Second,
        }
    }
}

// How the builder's fields relate to UTC.
#[derive(Clone, Copy)]
pub enum BuilderOffset {
    Unknown,
    FromLocalFields(OffsetMinutes),
    FromUtcFields(OffsetMinutes),
}

impl BuilderOffset {
    // Of local fields: no `From`, which would not say which.
    pub fn from_local(offset: Option<OffsetMinutes>) -> BuilderOffset
        ensures { result ≡ from_local offset }
    {
        offset.map_or(BuilderOffset::Unknown, BuilderOffset::FromLocalFields)
    }
}

// What the builder has been given, with the first value of each field that it has not.
#[derive(Clone, Copy)]
pub struct BuilderFields {
    pub precision: TimestampPrecision,
    pub offset: BuilderOffset,
    pub year: u32,
    pub month: u32,
    pub day: u32,
    pub hour: u32,
    pub minute: u32,
    pub second: u32,
    pub attoseconds: u64,
    pub digits: u64,
}

// The difference of two instants: the order of the first beside the second, and its size.
#[derive(Clone, Copy)]
pub struct Distance {
    pub order: Ordering,
    pub seconds: u64,
    pub attoseconds: u64,
}

// The parts of a value's body: an offset, UTC fields, and the coefficient of the fraction.
#[derive(Clone, Copy)]
pub struct Body {
    pub offset: Option<OffsetMinutes>,
    pub utc: Fields,
    pub coefficient: u64,
}
