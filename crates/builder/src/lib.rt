// The builder. Its type says which fields it has been given: a finer field is given only after the coarser one, a fraction only after
// the second, an offset last.
#![tactic(auto)]

mod building;
mod date;
mod offset;
mod routes;
mod time;

ghost use Rattle.std.specs.Prelude.{◌≡◌};
ghost use Rattle.ion.specs.Calls.Stages.{with_year, with_month, with_day};
ghost use Rattle.ion.specs.Calls.Build.{build_of};

pub use building::build_fields;
pub use date::{HasDay, HasMonth, HasYear};
use ion::{BuilderFields, BuilderOffset, Refusal, Timestamp, TimestampPrecision};
pub use offset::{HasOffset, SupportsOffset};
use std::marker::PhantomData;
pub use time::{HasFractionalSeconds, HasHour, HasMinute, HasSeconds};

// The fields given so far. S is the stage: HasYear to HasOffset.
#[derive(Clone, Copy)]
pub struct TimestampBuilder<S> {
    fields: BuilderFields,
    stage: PhantomData<S>,
}

impl<S> TimestampBuilder<S> {
    fn new(fields: BuilderFields) -> TimestampBuilder<S>
        ensures { result.fields ≡ fields }
    {
        TimestampBuilder {
            fields,
            stage: PhantomData,
        }
    }

    pub fn build(self) -> Result<Timestamp, Refusal>
        ensures { result ≡ build_of self.fields }
    {
        building::build(self.fields)
    }
}

pub fn with_year(year: u32) -> TimestampBuilder<HasYear>
    ensures { result.fields ≡ with_year year }
{
    TimestampBuilder::new(BuilderFields {
        precision: TimestampPrecision::Year,
        offset: BuilderOffset::Unknown,
        year,
        month: 1,
        day: 1,
        hour: 0,
        minute: 0,
        second: 0,
        attoseconds: 0,
        digits: 0,
    })
}

pub fn with_ymd(year: u32, month: u32, day: u32) -> TimestampBuilder<HasDay>
    ensures { result.fields ≡ with_day (with_month (with_year year) month) day }
{
    with_year(year).with_month(month).with_day(day)
}
