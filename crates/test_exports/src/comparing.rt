// Order, equality and distance of two packed pairs. C has a function for each.
ghost use Rattle.std.specs.Prelude.{false};
ghost use Rattle.ion.specs.Pair.Pair.{packed_pair};
ghost use Rattle.ion.specs.Calls.Order.{cmp_of, eq_of, ion_cmp_of, ion_eq_of, distance_of};
ghost use Rattle.test_results.specs.Answers.{AnswerIs, OrderIs, DistanceIs};

use test_results::{pair, store, store_distance, store_order};

#[unsafe(no_mangle)]
pub extern "C" fn timestamp_cmp(w: u64, a: u64, v: u64, b: u64, order: &mut i32) -> u32
    ensures { OrderIs (cmp_of (packed_pair w a) (packed_pair v b)) result order.new }
{
    store_order(order::cmp(pair(w, a), pair(v, b)), order)
}

#[unsafe(no_mangle)]
pub extern "C" fn timestamp_eq(w: u64, a: u64, v: u64, b: u64, equal: &mut bool) -> u32
    ensures { AnswerIs (eq_of (packed_pair w a) (packed_pair v b)) false result equal.new }
{
    store(order::eq(pair(w, a), pair(v, b)), false, equal)
}

#[unsafe(no_mangle)]
pub extern "C" fn timestamp_ion_cmp(w: u64, a: u64, v: u64, b: u64, order: &mut i32) -> u32
    ensures { OrderIs (ion_cmp_of (packed_pair w a) (packed_pair v b)) result order.new }
{
    store_order(order::ion_cmp(pair(w, a), pair(v, b)), order)
}

#[unsafe(no_mangle)]
pub extern "C" fn timestamp_ion_eq(w: u64, a: u64, v: u64, b: u64, equal: &mut bool) -> u32
    ensures { AnswerIs (ion_eq_of (packed_pair w a) (packed_pair v b)) false result equal.new }
{
    store(order::ion_eq(pair(w, a), pair(v, b)), false, equal)
}

#[unsafe(no_mangle)]
pub extern "C" fn timestamp_distance(
    w: u64,
    a: u64,
    v: u64,
    b: u64,
    sign: &mut i32,
    seconds: &mut u64,
    attoseconds: &mut u64,
) -> u32
    ensures { DistanceIs (distance_of (packed_pair w a) (packed_pair v b)) result sign.new seconds.new
        attoseconds.new }
{
    store_distance(
        order::distance(pair(w, a), pair(v, b)),
        sign,
        seconds,
        attoseconds,
    )
}
