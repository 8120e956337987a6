// Fractions given as a number of units: milliseconds, microseconds, nanoseconds.
ghost use Rattle.std.specs.Prelude.{◌≡◌, ◌*◌};
ghost use Rattle.ion.specs.Pair.Fraction.{scale, capped, capped_fraction, milliseconds, microseconds, nanoseconds, nanoseconds_to};

use crate::powers::{NANOSECOND, cut, power, scale};
use ion::{Fraction, MAX_ATTOSECONDS};

// 10^18 for a second or more.
#[tactic(auto, unfolding(ion::specs::Pair::Fraction::capped))]
pub(crate) fn cap(attoseconds: u64) -> u64
    ensures { result ≡ capped attoseconds }
{
    attoseconds.min(MAX_ATTOSECONDS)
}

// The attoseconds of n units of the last of the digits. By a test and not by saturating_mul, which divides.
#[tactic(auto, using(crate::proofs::Capped::scaled))]
pub(crate) fn scaled(n: u64, digits: u64) -> u64
    ensures { result ≡ capped (n * scale digits) }
{
    if power(digits) <= n {
        MAX_ATTOSECONDS
    } else {
        n * scale(digits)
    }
}

fn units(n: u32, digits: u64) -> Fraction
    ensures { result ≡ capped_fraction (n * scale digits) digits }
{
    Fraction {
        attoseconds: scaled(n as u64, digits),
        digits,
    }
}

pub fn from_milliseconds(n: u32) -> Fraction
    ensures { result ≡ milliseconds n }
{
    units(n, 3)
}

pub fn from_microseconds(n: u32) -> Fraction
    ensures { result ≡ microseconds n }
{
    units(n, 6)
}

pub fn from_nanoseconds(n: u32) -> Fraction
    ensures { result ≡ nanoseconds n }
{
    units(n, 9)
}

// Nanoseconds cut toward zero to a number of digits.
pub fn from_nanoseconds_and_precision(n: u32, digits: u32) -> Fraction
    ensures { result ≡ nanoseconds_to n digits }
{
    let kept = digits as u64;
    Fraction {
        attoseconds: cap(cut(n as u64 * NANOSECOND, kept)),
        digits: kept,
    }
}
