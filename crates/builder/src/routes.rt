// The two ways to a timestamp: from local fields, and from UTC fields, which an offset moves to local ones.
ghost use Rattle.std.specs.Prelude.{◌≡◌};
ghost use Rattle.std.specs.Result.{result_and};
ghost use Rattle.ion.specs.Pair.Offset.{WithinDay};
ghost use Rattle.ion.specs.Pair.Word.{InRange};
ghost use Rattle.ion.specs.Calls.Build.{is_day, is_year, given_time, moved_time};
ghost use Rattle.ion.specs.Calls.Build.{first_of, local_checks, utc_checks, packed_of, pair_at};
ghost use Rattle.ion.specs.Calls.Accepted.{InBounds};

use ion::offset::{OffsetMinutes, raw_of};
use ion::{BuilderFields, DateTime, Fields, Refusal, Timestamp};

// The packed pair of the local fields, the one place that copies them: year to minute have their own names in a word. An offset that
// anyone may give stays within a day by a fact in contracts.
fn finish(f: BuilderFields, local: DateTime, offset: Option<OffsetMinutes>) -> Timestamp
    requires { WithinDay offset × InRange (packed_of f local offset) }
    ensures { result ≡ pair_at f local offset }
{
    let fields = Fields {
        year: local.year,
        month: local.month,
        day: local.day,
        hour: local.hour,
        minute: local.minute,
        second: f.second,
        precision: f.precision.number(),
        digits: f.digits as u32,
        offset: raw_of(offset),
    };
    Timestamp {
        packed_fields: packed::pack(fields),
        attoseconds: f.attoseconds,
    }
}

// The fields to the minute, as they were given. The one place that copies them.
fn given_time(f: BuilderFields) -> DateTime
    ensures { result ≡ given_time f }
{
    let BuilderFields {
        year,
        month,
        day,
        hour,
        minute,
        ..
    } = f;
    DateTime {
        year,
        month,
        day,
        hour,
        minute,
    }
}

// Whether there is such a calendar day.
fn is_day(f: BuilderFields) -> bool
    ensures { result ≡ is_day f }
{
    calendar::is_date(given_time(f).date())
}

// Whether it is a local year.
fn is_year(year: u32) -> bool
    ensures { result ≡ is_year year }
{
    (1..=9999).contains(&year)
}

// From local fields.
pub(crate) fn from_fields(
    f: BuilderFields,
    offset: Option<OffsetMinutes>,
) -> Result<Timestamp, Refusal>
    requires { InBounds f × WithinDay offset }
    ensures { result ≡ result_and (first_of (local_checks f)) (Ok (pair_at f (given_time f) offset)) }
{
    if !is_year(f.year) {
        return Err(Refusal::LocalYear);
    }
    if !is_day(f) {
        return Err(Refusal::NoDay);
    }
    Ok(finish(f, given_time(f), offset))
}

// From UTC fields, which an offset moves to local ones.
pub(crate) fn from_utc_fields(f: BuilderFields, m: OffsetMinutes) -> Result<Timestamp, Refusal>
    requires { InBounds f × WithinDay (Some m) }
    ensures { result ≡ result_and (first_of (utc_checks f m)) (Ok (pair_at f (moved_time f m) (Some m))) }
{
    if !is_day(f) {
        return Err(Refusal::NoDay);
    }
    let local = calendar::add_offset_to_utc(given_time(f), m);
    if !is_year(local.year) {
        return Err(Refusal::LocalYear);
    }
    Ok(finish(f, local, Some(m)))
}
