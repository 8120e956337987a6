// Port of binary/timestamp.rs: the body of a timestamp's value. Its bytes are gathered in an array that is lent from call
// to call, and copied once.
ghost use Rattle.std.specs.Prelude.{◌≡◌, ◌+◌, ◌/◌, ◌≤◌, length};
ghost use Rattle.ion.specs.Pair.Fraction.{scale};
ghost use Rattle.ion.specs.Calls.Output.{Run, put_after, wrote_after};
ghost use Rattle.ion.specs.Calls.Check.{check_of};
ghost use Rattle.ion.specs.Calls.Accepted.{Accepted};
ghost use Rattle.ion.specs.Value.Encode.{offset_bytes, varuints, field_count, fraction_bytes, body_of};

use binary::decimal::UnsignedDecimal;
use binary::var_int::{self, VarInt};
use binary::var_uint::VarUInt;
use ion::offset::OffsetMinutes;
use ion::{Refusal, Timestamp, offset};

// The longest body.
pub const MAX_BODY_LENGTH: usize = 18;

// The room for a value.
pub const MAX_TIMESTAMP_LENGTH: usize = 32;

// An unknown offset is negative zero.
#[tactic(auto, using(crate::proofs::Lengths::own), unfolding(ion::specs::Value::Encode::offset_bytes, ion::specs::Numbers::VarInt::varint))]
fn put_offset(buf: &mut [u8], at: usize, offset: Option<OffsetMinutes>) -> usize
    requires { at + length (offset_bytes offset) ≤ length buf.old }
    ensures { Run buf.old at (offset_bytes offset) buf.new result }
{
    let minutes = match offset {
        None => var_int::NEGATIVE_ZERO,
        Some(m) => var_int::parts_of(m.minutes() as i64),
    };
    output::put(buf, at, VarInt(minutes))
}

// How many fields there are at a precision, a number as the word has it.
#[tactic(auto, unfolding(ion::specs::Value::Encode::field_count))]
fn field_count(precision: u32) -> usize
    requires { precision ≤ 4 }
    ensures value { result ≡ field_count precision }
    ensures most { result ≤ 6 }
{
    if 3 <= precision {
        precision as usize + 2
    } else {
        precision as usize + 1
    }
}

// Fields, one after another.
fn put_fields(buf: &mut [u8], at: usize, fields: &[u32]) -> usize
    requires { at + length (varuints fields.now) ≤ length buf.old }
    ensures { Run buf.old at (varuints fields.now) buf.new result }
{
    let mut next = at;
    for &field in fields {
        next = output::put(buf, next, VarUInt(field as u64));
    }
    next
}

// The exponent and the coefficient of a fraction. One without digits has no bytes, and is not divided.
#[tactic(auto, using(crate::proofs::BodyRuns::fractions))]
fn put_fraction(buf: &mut [u8], at: usize, digits: u32, attoseconds: u64) -> usize
    requires { at + length (fraction_bytes digits (attoseconds / scale digits)) ≤ length buf.old }
    ensures { Run buf.old at (fraction_bytes digits (attoseconds / scale digits)) buf.new result }
{
    if digits == 0 {
        return at;
    }
    let coefficient = attoseconds / fraction::scale(digits as u64);
    let item = UnsignedDecimal {
        coefficient,
        exponent: -(digits as i64),
    };
    output::put(buf, at, item)
}

// The body of an accepted timestamp, where there is room for it.
pub(crate) fn put_body(buf: &mut [u8], at: usize, s: Timestamp) -> usize
    requires accepted { Accepted s }
    requires room { at + length (body_of s) ≤ length buf.old }
    ensures { Run buf.old at (body_of s) buf.new result }
{
    let local = packed::unpack(s.packed_fields);
    let utc = timestamp::utc_fields(local);
    let o = offset::offset_of(local.offset);
    let fields = [
        utc.year, utc.month, utc.day, utc.hour, utc.minute, utc.second,
    ];
    let count = field_count(local.precision);
    let after_offset = put_offset(buf, at, o);
    let after_fields = put_fields(buf, after_offset, &fields[..count]);
    put_fraction(buf, after_fields, local.digits, s.attoseconds)
}

// Writes the body of a timestamp's value from index `at` on.
#[tactic(auto, using(crate::proofs::Lengths::all), unfolding(ion::specs::Calls::Output::put_after, ion::specs::Calls::Output::wrote_after))]
pub fn encode_timestamp(buf: &mut [u8], at: usize, s: Timestamp) -> Result<usize, Refusal>
    ensures value { result ≡ wrote_after (check_of s) buf.old at (body_of s) }
    ensures buffer { buf.new ≡ put_after (check_of s) buf.old at (body_of s) }
{
    timestamp::check(s)?;
    let mut bytes = [0u8; MAX_TIMESTAMP_LENGTH];
    let end = put_body(&mut bytes, 0, s);
    output::put_bytes(buf, at, &bytes[..end])
}
