// The check of a packed pair.
ghost use Rattle.std.specs.Prelude.{◌≡◌, OnOk};
ghost use Rattle.ion.specs.Calls.Accepted.{Accepted};
ghost use Rattle.ion.specs.Pair.Pair.{packed_pair};
ghost use Rattle.ion.specs.Calls.Check.{offset_at, given_at, fraction_at, rebuilt, same_as, check_of};

use crate::accepted::is_accepted;
use builder::build_fields;
use ion::offset::{RawOffset, offset_of};
use ion::{BuilderFields, BuilderOffset, Fields, Refusal, Timestamp, TimestampPrecision};

// ---- by the number of a word's precision, which may be 5 to 7 too

// The offset of a packed word, which only precision 3 and finer have.
fn offset_at(precision: u32, raw: RawOffset) -> BuilderOffset
    ensures { result ≡ offset_at precision raw }
{
    if precision < 3 {
        return BuilderOffset::Unknown;
    }
    BuilderOffset::from_local(offset_of(raw))
}

// A field that a precision has, else its first value.
fn given_at(from: u32, precision: u32, x: u32, first: u32) -> u32
    ensures { result ≡ given_at from precision x first }
{
    if from <= precision { x } else { first }
}

// The attoseconds of a packed pair, cut to its digits; 0 where there is no fraction.
fn fraction_at(precision: u32, digits: u32, attoseconds: u64) -> u64
    ensures { result ≡ fraction_at precision digits attoseconds }
{
    if precision < 4 || digits == 0 {
        return 0;
    }
    fraction::cut(attoseconds, digits as u64)
}

// The fields that the precision of a packed word has.
fn rebuild(f: Fields, attoseconds: u64) -> BuilderFields
    ensures { result ≡ rebuilt f attoseconds }
{
    let p = f.precision;
    BuilderFields {
        precision: TimestampPrecision::from_number(p),
        offset: offset_at(p, f.offset),
        year: f.year,
        month: given_at(1, p, f.month, 1),
        day: given_at(2, p, f.day, 1),
        hour: given_at(3, p, f.hour, 0),
        minute: given_at(3, p, f.minute, 0),
        second: given_at(4, p, f.second, 0),
        attoseconds: fraction_at(p, f.digits, attoseconds),
        digits: given_at(4, p, f.digits, 0) as u64,
    }
}

// What was built, where it is the pair that came in.
fn same_as(s: Timestamp, built: Result<Timestamp, Refusal>) -> Result<Timestamp, Refusal>
    ensures { result ≡ same_as s built }
{
    let t = built?;
    if (t.packed_fields, t.attoseconds) == (s.packed_fields, s.attoseconds) {
        Ok(t)
    } else {
        Err(Refusal::Pair)
    }
}

// The check as it is defined, by building the pair again.
#[tactic(auto, using(crate::proofs::CheckedFields::by_parts))]
fn check_by_building(s: Timestamp) -> Result<Timestamp, Refusal>
    ensures { result ≡ check_of s }
{
    let f = packed::unpack(s.packed_fields);
    if 18 < f.digits {
        return Err(Refusal::Digits);
    }
    same_as(s, build_fields(rebuild(f, s.attoseconds)))
}

// The timestamp, where the builder gives this pair. Only a pair that is refused is built again, for its refusal.
#[tactic(auto, using(crate::proofs::Accepts::accepted_same))]
pub fn check(s: Timestamp) -> Result<Timestamp, Refusal>
    ensures value { result ≡ check_of s }
    ensures accepted { OnOk result (Accepted s) }
{
    if is_accepted(s) {
        return Ok(s);
    }
    check_by_building(s)
}

// The check of the two numbers of a pair.
pub fn try_from_bits(packed_fields: u64, attoseconds: u64) -> Result<Timestamp, Refusal>
    ensures { result ≡ check_of (packed_pair packed_fields attoseconds) }
{
    check(Timestamp {
        packed_fields,
        attoseconds,
    })
}
