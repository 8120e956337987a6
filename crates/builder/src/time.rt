// The stages of a time of day: an hour was given, a minute, a second, a fraction of it. Setters have the Rust's names, a line for
// each field or unit.
ghost use Rattle.std.specs.Prelude.{◌≡◌};
ghost use Rattle.ion.specs.Calls.Stages.{with_minute, with_second, with_fraction};
ghost use Rattle.ion.specs.Pair.Fraction.{milliseconds, microseconds, nanoseconds, nanoseconds_to, decimal};

use crate::TimestampBuilder;
use ion::{BuilderFields, Decimal, Fraction, TimestampPrecision};

#[derive(Clone, Copy)]
pub struct HasHour;

impl TimestampBuilder<HasHour> {
    pub fn with_minute(self, minute: u32) -> TimestampBuilder<HasMinute>
        ensures { result.fields ≡ with_minute self.fields minute }
    {
        TimestampBuilder::new(BuilderFields {
            precision: TimestampPrecision::HourAndMinute,
            minute,
            ..self.fields
        })
    }
}

#[derive(Clone, Copy)]
pub struct HasMinute;

impl TimestampBuilder<HasMinute> {
    pub fn with_second(self, second: u32) -> TimestampBuilder<HasSeconds>
        ensures { result.fields ≡ with_second self.fields second }
    {
        TimestampBuilder::new(BuilderFields {
            precision: TimestampPrecision::Second,
            second,
            ..self.fields
        })
    }
}

#[derive(Clone, Copy)]
pub struct HasSeconds;

impl TimestampBuilder<HasSeconds> {
    fn with_fraction(self, x: Fraction) -> TimestampBuilder<HasFractionalSeconds>
        ensures { result.fields ≡ with_fraction self.fields x }
    {
        TimestampBuilder::new(BuilderFields {
            attoseconds: x.attoseconds,
            digits: x.digits,
            ..self.fields
        })
    }

    pub fn with_milliseconds(self, n: u32) -> TimestampBuilder<HasFractionalSeconds>
        ensures { result.fields ≡ with_fraction self.fields (milliseconds n) }
    {
        self.with_fraction(fraction::from_milliseconds(n))
    }

    pub fn with_microseconds(self, n: u32) -> TimestampBuilder<HasFractionalSeconds>
        ensures { result.fields ≡ with_fraction self.fields (microseconds n) }
    {
        self.with_fraction(fraction::from_microseconds(n))
    }

    pub fn with_nanoseconds(self, n: u32) -> TimestampBuilder<HasFractionalSeconds>
        ensures { result.fields ≡ with_fraction self.fields (nanoseconds n) }
    {
        self.with_fraction(fraction::from_nanoseconds(n))
    }

    // Nanoseconds cut toward zero to a number of digits.
    pub fn with_nanoseconds_and_precision(
        self,
        n: u32,
        digits: u32,
    ) -> TimestampBuilder<HasFractionalSeconds>
        ensures { result.fields ≡ with_fraction self.fields (nanoseconds_to n digits) }
    {
        self.with_fraction(fraction::from_nanoseconds_and_precision(n, digits))
    }

    pub fn with_fractional_seconds(self, d: Decimal) -> TimestampBuilder<HasFractionalSeconds>
        ensures { result.fields ≡ with_fraction self.fields (decimal d) }
    {
        self.with_fraction(fraction::from_decimal(d))
    }
}

#[derive(Clone, Copy)]
pub struct HasFractionalSeconds;
