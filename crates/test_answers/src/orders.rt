// Records of two timestamps: order, equality and distance. The number of all stands after the pairs.
ghost use Rattle.std.specs.Prelude.{◌≡◌};
ghost use Rattle.test_answers.specs.Agreement.{is_byte, order_byte, is_order, is_equality, order_agrees, distance_agrees};

use crate::fields::{byte_at, pair_at, word_at};
use ion::refusal::number_in;
use ion::{Distance, Refusal};
use std::cmp::Ordering;

// 00, 01, or FF for less.
fn order_byte(order: Ordering) -> u8
    ensures { result ≡ order_byte order }
{
    (order as i8).cast_unsigned()
}

// Whether an answer is the number and the byte at index `at`.
#[tactic(auto, unfolding(crate::specs::Agreement::is_byte))]
fn is_byte(a: Result<u8, Refusal>, r: &[u8], at: usize) -> bool
    ensures { result ≡ is_byte a r.now at }
{
    (number_in(&a), a.unwrap_or(0)) == (u32::from(byte_at(r, 32)), byte_at(r, at))
}

fn is_order(a: Result<Ordering, Refusal>, r: &[u8], at: usize) -> bool
    ensures { result ≡ is_order a r.now at }
{
    is_byte(a.map(order_byte), r, at)
}

// A byte of 1 says equal, 0 says not.
fn is_equality(a: Result<bool, Refusal>, r: &[u8], at: usize) -> bool
    ensures { result ≡ is_equality a r.now at }
{
    is_byte(a.map(u8::from), r, at)
}

#[tactic(auto, unfolding(crate::specs::Agreement::order_agrees))]
pub fn order_agrees(r: &[u8]) -> bool
    ensures { result ≡ order_agrees r.now }
{
    let s = pair_at(r, 0);
    let t = pair_at(r, 16);
    is_order(order::cmp(s, t), r, 33)
        && is_equality(order::eq(s, t), r, 34)
        && is_order(order::ion_cmp(s, t), r, 35)
        && is_equality(order::ion_eq(s, t), r, 36)
}

#[tactic(auto, unfolding(crate::specs::Agreement::distance_agrees))]
pub fn distance_agrees(r: &[u8]) -> bool
    ensures { result ≡ distance_agrees r.now }
{
    let a = order::distance(pair_at(r, 0), pair_at(r, 16));
    let d = a.unwrap_or(Distance {
        order: Ordering::Equal,
        seconds: 0,
        attoseconds: 0,
    });
    (number_in(&a), order_byte(d.order)) == (u32::from(byte_at(r, 32)), byte_at(r, 33))
        && (d.seconds, d.attoseconds) == (word_at(r, 34), word_at(r, 42))
}
