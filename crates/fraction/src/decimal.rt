// Fractions given as a decimal.
ghost use Rattle.std.specs.Prelude.{◌≡◌, ◌/◌, ◌^◌, min};
ghost use Rattle.ion.specs.Pair.Fraction.{capped, digits_of, attoseconds_of, below_zero, decimal};

use crate::powers::power;
use crate::units::{cap, scaled};
use ion::{Decimal, Fraction, MAX_ATTOSECONDS};

// Minus the exponent, or 0 where that is 0 or more.
fn digits_of(exponent: i64) -> u64
    ensures { result ≡ digits_of exponent }
{
    integers::unsigned_abs(exponent.min(0))
}

// n without its last digits; no n has more than 20.
#[tactic(auto, using(crate::proofs::Quotients::quotients))]
fn quotient(n: u64, digits: u64) -> u64
    ensures { result ≡ n / 10 ^ min digits 20 }
{
    if digits <= 18 {
        n / power(digits)
    } else {
        n / MAX_ATTOSECONDS / power(digits - 18)
    }
}

// n times 10^-digits, in attoseconds.
#[tactic(auto, using(crate::proofs::Quotients::decimals))]
fn attoseconds_of(n: u64, digits: u64) -> u64
    ensures { result ≡ capped (attoseconds_of n digits) }
{
    if digits <= 18 {
        scaled(n, digits)
    } else {
        cap(quotient(n, digits - 18))
    }
}

fn is_below_zero(d: Decimal) -> bool
    ensures { result ≡ below_zero d }
{
    d.negative && d.coefficient != 0
}

#[tactic(auto, unfolding(ion::specs::Pair::Fraction::capped))]
pub fn from_decimal(d: Decimal) -> Fraction
    ensures { result ≡ decimal d }
{
    let digits = digits_of(d.exponent);
    let attoseconds = if is_below_zero(d) {
        MAX_ATTOSECONDS
    } else {
        attoseconds_of(d.coefficient, digits)
    };
    Fraction {
        attoseconds,
        digits,
    }
}
