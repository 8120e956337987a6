// Calls that give a pair: building from a field set in numbers, the packed check and the UTC form. C has a function for each.
ghost use Rattle.std.specs.Prelude.{◌≡◌, MatchOption};
ghost use Rattle.ion.specs.Calls.Check.{check_of};
ghost use Rattle.ion.specs.Calls.Utc.{utc_of};
ghost use Rattle.ion.specs.Pair.Pair.{packed_pair};
ghost use Rattle.test_results.specs.Answers.{PairIs};
ghost use Rattle.test_field_sets.specs.FieldSets.{field_set, built_from, unknown_code};

use test_field_sets::{FieldSet, UNKNOWN_CODE, build_from};
use test_results::{pair, store_pair};

#[unsafe(no_mangle)]
pub extern "C" fn timestamp_build(
    stage: u32,
    month0: bool,
    day0: bool,
    both: bool,
    year: u32,
    month: u32,
    day: u32,
    hour: u32,
    minute: u32,
    second: u32,
    fraction: u32,
    amount: u32,
    digits: u32,
    coefficient: u64,
    exponent: i64,
    offset: u32,
    minutes: i32,
    word: &mut u64,
    attoseconds: &mut u64,
) -> u32
    ensures { MatchOption (built_from (field_set stage month0 day0 both year month day hour minute second fraction amount digits
        coefficient exponent offset minutes)) ((result ≡ unknown_code) × (word.new ≡ 0) × (attoseconds.new ≡ 0))
        (λ x. PairIs x result word.new attoseconds.new) }
{
    let x = FieldSet {
        stage,
        month0,
        day0,
        both,
        year,
        month,
        day,
        hour,
        minute,
        second,
        fraction,
        amount,
        digits,
        coefficient,
        exponent,
        offset,
        minutes,
    };
    let Some(built) = build_from(x) else {
        *word = 0;
        *attoseconds = 0;
        return UNKNOWN_CODE;
    };
    store_pair(built, word, attoseconds)
}

#[unsafe(no_mangle)]
pub extern "C" fn timestamp_check(w: u64, a: u64, word: &mut u64, attoseconds: &mut u64) -> u32
    ensures { PairIs (check_of (packed_pair w a)) result word.new attoseconds.new }
{
    store_pair(timestamp::try_from_bits(w, a), word, attoseconds)
}

#[unsafe(no_mangle)]
pub extern "C" fn timestamp_to_utc(w: u64, a: u64, word: &mut u64, attoseconds: &mut u64) -> u32
    ensures { PairIs (utc_of (packed_pair w a)) result word.new attoseconds.new }
{
    store_pair(timestamp::to_utc(pair(w, a)), word, attoseconds)
}
