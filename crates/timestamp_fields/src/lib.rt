// What a timestamp holds, after its check: the fields of the packed word and the offset; the fraction is a module of its own.
// Each field has the Rust's name and a line over `field`.
#![tactic(auto, unfolding(ion::specs::Pair::Word::fields_of))]

mod fractional_seconds;

ghost use Rattle.std.specs.Prelude.{◌≡◌};
ghost use Rattle.ion.specs.Calls.Reads.{field_of, year_of, month_of, day_of, hour_of};
ghost use Rattle.ion.specs.Calls.Reads.{minute_of, second_of, precision_field_of, digits_field_of};
ghost use Rattle.ion.specs.Calls.Reads.{offset_field_of};

pub use fractional_seconds::{
    attoseconds, fractional_seconds_as_decimal, microseconds, milliseconds, nanoseconds,
};
use ion::offset::{OffsetMinutes, offset_of};
use ion::{Refusal, Timestamp, TimestampPrecision};

// A value of the timestamp, where the check accepts it.
#[tactic(auto, unfolding(ion::specs::Calls::Reads::field_of))]
pub(crate) fn field<T: Copy>(s: Timestamp, value: T) -> Result<T, Refusal>
    ensures { result ≡ field_of value s }
{
    timestamp::check(s)?;
    Ok(value)
}

// ---- the fields of the packed word, by the names of the Rust; date and time are local

pub fn year(s: Timestamp) -> Result<u32, Refusal>
    ensures { result ≡ year_of s }
{
    field(s, packed::year(s.packed_fields))
}

pub fn month(s: Timestamp) -> Result<u32, Refusal>
    ensures { result ≡ month_of s }
{
    field(s, packed::month(s.packed_fields))
}

pub fn day(s: Timestamp) -> Result<u32, Refusal>
    ensures { result ≡ day_of s }
{
    field(s, packed::day(s.packed_fields))
}

pub fn hour(s: Timestamp) -> Result<u32, Refusal>
    ensures { result ≡ hour_of s }
{
    field(s, packed::hour(s.packed_fields))
}

pub fn minute(s: Timestamp) -> Result<u32, Refusal>
    ensures { result ≡ minute_of s }
{
    field(s, packed::minute(s.packed_fields))
}

pub fn second(s: Timestamp) -> Result<u32, Refusal>
    ensures { result ≡ second_of s }
{
    field(s, packed::second(s.packed_fields))
}

pub fn precision(s: Timestamp) -> Result<TimestampPrecision, Refusal>
    ensures { result ≡ precision_field_of s }
{
    let number = packed::precision(s.packed_fields);
    field(s, TimestampPrecision::from_number(number))
}

// How many digits the fraction has.
pub fn fractional_seconds_scale(s: Timestamp) -> Result<u32, Refusal>
    ensures { result ≡ digits_field_of s }
{
    field(s, packed::digits(s.packed_fields))
}

// The offset from UTC; none where it is unknown.
pub fn offset(s: Timestamp) -> Result<Option<OffsetMinutes>, Refusal>
    ensures { result ≡ offset_field_of s }
{
    field(s, offset_of(packed::raw_offset(s.packed_fields)))
}
