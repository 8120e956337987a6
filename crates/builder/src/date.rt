// The stages of a date: a year was given, a month, a day. Setters have the Rust's names, a line for each field.
ghost use Rattle.std.specs.Prelude.{◌≡◌};
ghost use Rattle.ion.specs.Calls.Stages.{from_zero, with_month, with_day, with_hour, with_hour_and_minute, with_second};

use crate::{HasHour, HasMinute, HasSeconds, TimestampBuilder};
use ion::{BuilderFields, TimestampPrecision};

#[derive(Clone, Copy)]
pub struct HasYear;

impl TimestampBuilder<HasYear> {
    pub fn with_month(self, month: u32) -> TimestampBuilder<HasMonth>
        ensures { result.fields ≡ with_month self.fields month }
    {
        TimestampBuilder::new(BuilderFields {
            precision: TimestampPrecision::Month,
            month,
            ..self.fields
        })
    }

    // The month counted from 0. The largest number, which no check takes, stays.
    pub fn with_month0(self, month: u32) -> TimestampBuilder<HasMonth>
        ensures { result.fields ≡ with_month self.fields (from_zero month) }
    {
        self.with_month(month.saturating_add(1))
    }
}

#[derive(Clone, Copy)]
pub struct HasMonth;

impl TimestampBuilder<HasMonth> {
    pub fn with_day(self, day: u32) -> TimestampBuilder<HasDay>
        ensures { result.fields ≡ with_day self.fields day }
    {
        TimestampBuilder::new(BuilderFields {
            precision: TimestampPrecision::Day,
            day,
            ..self.fields
        })
    }

    // The day counted from 0. The largest number, which no check takes, stays.
    pub fn with_day0(self, day: u32) -> TimestampBuilder<HasDay>
        ensures { result.fields ≡ with_day self.fields (from_zero day) }
    {
        self.with_day(day.saturating_add(1))
    }
}

#[derive(Clone, Copy)]
pub struct HasDay;

impl TimestampBuilder<HasDay> {
    pub fn with_hour(self, hour: u32) -> TimestampBuilder<HasHour>
        ensures { result.fields ≡ with_hour self.fields hour }
    {
        TimestampBuilder::new(BuilderFields {
            precision: TimestampPrecision::HourAndMinute,
            hour,
            ..self.fields
        })
    }

    pub fn with_hour_and_minute(self, hour: u32, minute: u32) -> TimestampBuilder<HasMinute>
        ensures { result.fields ≡ with_hour_and_minute self.fields hour minute }
    {
        self.with_hour(hour).with_minute(minute)
    }

    pub fn with_hms(self, hour: u32, minute: u32, second: u32) -> TimestampBuilder<HasSeconds>
        ensures { result.fields ≡ with_second (with_hour_and_minute self.fields hour minute) second }
    {
        self.with_hour_and_minute(hour, minute).with_second(second)
    }
}
