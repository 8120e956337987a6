// The builder, stage by stage, by the calls that the codes name. The codes stay numbers, as the C interface and the recorded files
// give them: an enum of each would need a decoding of its own.
ghost use Rattle.std.specs.Prelude.{◌≡◌};
ghost use Rattle.ion.specs.Calls.Build.{build_of};
ghost use Rattle.ion.specs.Calls.Stages.{with_fraction};
ghost use Rattle.test_field_sets.specs.FieldSets.{month_given, day_given, minute_given, second_given};
ghost use Rattle.test_field_sets.specs.FieldSets.{fraction_given, with_offset_given, fields_given};

use crate::FieldSet;
use builder::{
    HasDay, HasFractionalSeconds, HasMinute, HasMonth, HasSeconds, SupportsOffset, TimestampBuilder,
};
use ion::{Decimal, Refusal, Timestamp};

fn give_month(x: FieldSet) -> TimestampBuilder<HasMonth>
    ensures { result.fields ≡ month_given x }
{
    let year = builder::with_year(x.year);
    if x.month0 {
        year.with_month0(x.month)
    } else {
        year.with_month(x.month)
    }
}

fn give_day(x: FieldSet) -> TimestampBuilder<HasDay>
    ensures { result.fields ≡ day_given x }
{
    let month = give_month(x);
    if x.day0 {
        month.with_day0(x.day)
    } else {
        month.with_day(x.day)
    }
}

// By one call or two, which is the same.
fn give_minute(x: FieldSet) -> TimestampBuilder<HasMinute>
    ensures { result.fields ≡ minute_given x }
{
    let day = give_day(x);
    if x.both {
        day.with_hour_and_minute(x.hour, x.minute)
    } else {
        day.with_hour(x.hour).with_minute(x.minute)
    }
}

fn give_fraction(
    s: TimestampBuilder<HasSeconds>,
    x: FieldSet,
) -> TimestampBuilder<HasFractionalSeconds>
    ensures { result.fields ≡ with_fraction s.fields (fraction_given x) }
{
    match x.fraction {
        1 => s.with_milliseconds(x.amount),
        2 => s.with_microseconds(x.amount),
        3 => s.with_nanoseconds(x.amount),
        4 => s.with_nanoseconds_and_precision(x.amount, x.digits),
        kind => s.with_fractional_seconds(Decimal {
            negative: kind == 6,
            coefficient: x.coefficient,
            exponent: x.exponent,
        }),
    }
}

// What is built at a stage that takes an offset: without one, from local fields, or from UTC fields.
#[tactic(auto, unfolding(crate::specs::FieldSets::with_offset_given))]
fn build_offset<S: SupportsOffset>(
    s: TimestampBuilder<S>,
    x: FieldSet,
) -> Result<Timestamp, Refusal>
    ensures { result ≡ build_of (with_offset_given x s.fields) }
{
    match x.offset {
        0 => s.build(),
        1 => s.with_offset(x.minutes).build(),
        _ => s.localize_to_offset(x.minutes).build(),
    }
}

// A second, and perhaps a fraction of it.
#[tactic(auto, unfolding(crate::specs::FieldSets::with_fraction_given))]
fn build_second(x: FieldSet) -> Result<Timestamp, Refusal>
    ensures { result ≡ build_of (with_offset_given x (second_given x)) }
{
    let second = give_minute(x).with_second(x.second);
    match x.fraction {
        0 => build_offset(second, x),
        _ => build_offset(give_fraction(second, x), x),
    }
}

#[tactic(auto, unfolding(crate::specs::FieldSets::fields_given))]
pub(crate) fn build_staged(x: FieldSet) -> Result<Timestamp, Refusal>
    ensures { result ≡ build_of (fields_given x) }
{
    match x.stage {
        0 => builder::with_year(x.year).build(),
        1 => give_month(x).build(),
        2 => give_day(x).build(),
        3 => build_offset(give_day(x).with_hour(x.hour), x),
        4 => build_offset(give_minute(x), x),
        _ => build_second(x),
    }
}
