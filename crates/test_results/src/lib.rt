// A pair taken in, and answers handed out: the number is returned, the rest is stored through references.
#![tactic(auto)]

ghost use Rattle.std.specs.Prelude.{◌≡◌};
ghost use Rattle.ion.specs.Pair.Pair.{packed_pair};
ghost use Rattle.test_results.specs.Answers.{AnswerIs, PairIs, DecimalIs, OffsetIs, OrderIs, DistanceIs, ReadIs};

use ion::offset::{self, OffsetMinutes};
use ion::refusal::number_in;
use ion::{Decimal, Distance, Refusal, Timestamp};
use std::cmp::Ordering;

// What a refusal hands out where there must be a pair.
const NO_STAMP: Timestamp = Timestamp {
    packed_fields: 0,
    attoseconds: 0,
};

pub fn pair(w: u64, a: u64) -> Timestamp
    ensures { result ≡ packed_pair w a }
{
    Timestamp {
        packed_fields: w,
        attoseconds: a,
    }
}

// What an answer holds, or `none` beside a refusal.
pub fn store<T: Copy>(x: Result<T, Refusal>, none: T, value: &mut T) -> u32
    ensures { AnswerIs x none result value.new }
{
    *value = x.unwrap_or(none);
    number_in(&x)
}

pub fn store_pair(x: Result<Timestamp, Refusal>, word: &mut u64, attoseconds: &mut u64) -> u32
    ensures { PairIs x result word.new attoseconds.new }
{
    let s = x.unwrap_or(NO_STAMP);
    *word = s.packed_fields;
    *attoseconds = s.attoseconds;
    number_in(&x)
}

// A fraction is not below zero: its sign is left out.
pub fn store_decimal(x: Result<Decimal, Refusal>, coefficient: &mut u64, exponent: &mut i64) -> u32
    ensures { DecimalIs x result coefficient.new exponent.new }
{
    (*coefficient, *exponent) = x.map_or((0, 0), |d| (d.coefficient, d.exponent));
    number_in(&x)
}

pub fn store_offset(
    x: Result<Option<OffsetMinutes>, Refusal>,
    known: &mut bool,
    minutes: &mut i32,
) -> u32
    ensures { OffsetIs x result known.new minutes.new }
{
    let o = x.unwrap_or(None);
    *known = o.is_some();
    *minutes = offset::minutes_of(o).minutes();
    number_in(&x)
}

// An order as -1, 0 or 1.
pub fn store_order(x: Result<Ordering, Refusal>, order: &mut i32) -> u32
    ensures { OrderIs x result order.new }
{
    *order = x.unwrap_or(Ordering::Equal) as i32;
    number_in(&x)
}

pub fn store_distance(
    x: Result<Distance, Refusal>,
    sign: &mut i32,
    seconds: &mut u64,
    attoseconds: &mut u64,
) -> u32
    ensures { DistanceIs x result sign.new seconds.new attoseconds.new }
{
    let d = x.unwrap_or(Distance {
        order: Ordering::Equal,
        seconds: 0,
        attoseconds: 0,
    });
    *sign = d.order as i32;
    *seconds = d.seconds;
    *attoseconds = d.attoseconds;
    number_in(&x)
}

pub fn store_read(
    x: Result<(Timestamp, usize), Refusal>,
    word: &mut u64,
    attoseconds: &mut u64,
    taken: &mut usize,
) -> u32
    ensures { ReadIs x result word.new attoseconds.new taken.new }
{
    let (s, n) = x.unwrap_or((NO_STAMP, 0));
    *word = s.packed_fields;
    *attoseconds = s.attoseconds;
    *taken = n;
    number_in(&x)
}
