// The fields of a timestamp. C has a function for each kind of answer.
ghost use Rattle.std.specs.Prelude.{◌≡◌, MatchOption};
ghost use Rattle.ion.specs.Pair.Pair.{packed_pair};
ghost use Rattle.ion.specs.Calls.Reads.{attoseconds_field_of, decimal_field_of, offset_field_of};
ghost use Rattle.test_field_sets.specs.FieldSets.{unknown_code};
ghost use Rattle.test_results.specs.Answers.{AnswerIs, DecimalIs, OffsetIs};
ghost use Rattle.test_exports.specs.Reading.{field_by};

use ion::{Refusal, Timestamp, TimestampPrecision};
use test_field_sets::UNKNOWN_CODE;
use test_results::{pair, store, store_decimal, store_offset};

// The field of a code; none where the code stands for nothing. The code stays a number, as the C interface gives it: an enum would
// need a decoding of its own.
#[tactic(auto, unfolding(crate::specs::Reading::field_by))]
fn field_by(code: u32, s: Timestamp) -> Option<Result<u32, Refusal>>
    ensures { result ≡ field_by code s }
{
    let field = match code {
        0 => timestamp_fields::year(s),
        1 => timestamp_fields::month(s),
        2 => timestamp_fields::day(s),
        3 => timestamp_fields::hour(s),
        4 => timestamp_fields::minute(s),
        5 => timestamp_fields::second(s),
        6 => timestamp_fields::precision(s).map(TimestampPrecision::number),
        7 => timestamp_fields::fractional_seconds_scale(s),
        8 => timestamp_fields::milliseconds(s),
        9 => timestamp_fields::microseconds(s),
        10 => timestamp_fields::nanoseconds(s),
        _ => return None,
    };
    Some(field)
}

#[unsafe(no_mangle)]
pub extern "C" fn timestamp_field(code: u32, w: u64, a: u64, value: &mut u32) -> u32
    ensures { MatchOption (field_by code (packed_pair w a)) ((result ≡ unknown_code) × (value.new ≡ 0))
        (λ x. AnswerIs x 0 result value.new) }
{
    let Some(field) = field_by(code, pair(w, a)) else {
        *value = 0;
        return UNKNOWN_CODE;
    };
    store(field, 0, value)
}

#[unsafe(no_mangle)]
pub extern "C" fn timestamp_offset(w: u64, a: u64, known: &mut bool, minutes: &mut i32) -> u32
    ensures { OffsetIs (offset_field_of (packed_pair w a)) result known.new minutes.new }
{
    store_offset(timestamp_fields::offset(pair(w, a)), known, minutes)
}

#[unsafe(no_mangle)]
pub extern "C" fn timestamp_attoseconds(w: u64, a: u64, value: &mut u64) -> u32
    ensures { AnswerIs (attoseconds_field_of (packed_pair w a)) 0 result value.new }
{
    store(timestamp_fields::attoseconds(pair(w, a)), 0, value)
}

#[unsafe(no_mangle)]
pub extern "C" fn timestamp_fractional_seconds(
    w: u64,
    a: u64,
    coefficient: &mut u64,
    exponent: &mut i64,
) -> u32
    ensures { DecimalIs (decimal_field_of (packed_pair w a)) result coefficient.new exponent.new }
{
    let x = timestamp_fields::fractional_seconds_as_decimal(pair(w, a));
    store_decimal(x, coefficient, exponent)
}
