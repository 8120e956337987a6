// The builder: the checks 1 to 9 in their order, then the route of the fields.
ghost use Rattle.std.specs.Prelude.{◌≡◌};
ghost use Rattle.ion.specs.Calls.Accepted.{Staged};
ghost use Rattle.ion.specs.Calls.Build.{offset_outside, first_of, range_checks, build_of};

use crate::routes::{from_fields, from_utc_fields};
use ion::{BuilderFields, BuilderOffset, MAX_ATTOSECONDS, Refusal, Timestamp};

// Whether an offset is known and a day or more.
fn offset_outside(offset: BuilderOffset) -> bool
    ensures { result ≡ offset_outside offset }
{
    match offset {
        BuilderOffset::Unknown => false,
        BuilderOffset::FromLocalFields(m) | BuilderOffset::FromUtcFields(m) => !m.is_offset(),
    }
}

// The checks 1 to 9: the refusal of the first that fails.
fn validate_field_ranges(f: BuilderFields) -> Result<(), Refusal>
    ensures { result ≡ first_of (range_checks f) }
{
    if MAX_ATTOSECONDS <= f.attoseconds {
        return Err(Refusal::Fraction);
    }
    if 9999 < f.year {
        return Err(Refusal::Year);
    }
    if 12 < f.month {
        return Err(Refusal::Month);
    }
    if 31 < f.day {
        return Err(Refusal::Day);
    }
    if 23 < f.hour {
        return Err(Refusal::Hour);
    }
    if 59 < f.minute {
        return Err(Refusal::Minute);
    }
    if 59 < f.second {
        return Err(Refusal::Second);
    }
    if 18 < f.digits {
        return Err(Refusal::Digits);
    }
    if offset_outside(f.offset) {
        return Err(Refusal::Offset);
    }
    Ok(())
}

// The timestamp of the fields, or the refusal of the first check that fails. Of fields that no stage gives it may make a pair
// that the packed check refuses: only the stages and `build_fields` call it.
#[tactic(auto, using(crate::proofs::Routed::routes))]
pub(crate) fn build(f: BuilderFields) -> Result<Timestamp, Refusal>
    ensures { result ≡ build_of f }
{
    validate_field_ranges(f)?;
    match f.offset {
        BuilderOffset::Unknown => from_fields(f, None),
        BuilderOffset::FromLocalFields(m) => from_fields(f, Some(m)),
        BuilderOffset::FromUtcFields(m) => from_utc_fields(f, m),
    }
}

// For the crates above that gather fields in one record: what they pass must be fields that the stages can give.
pub fn build_fields(f: BuilderFields) -> Result<Timestamp, Refusal>
    requires { Staged f }
    ensures { result ≡ build_of f }
{
    build(f)
}
