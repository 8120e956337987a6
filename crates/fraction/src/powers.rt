// The powers of ten, 10^0 to 10^18, and attoseconds cut to a number of digits.
ghost use Rattle.std.specs.Prelude.{◌≡◌, ◌^◌, min};
ghost use Rattle.ion.specs.Pair.Fraction.{scale, cut_to};

use ion::MAX_ATTOSECONDS;

// The attoseconds of a nanosecond.
pub(crate) const NANOSECOND: u64 = 1_000_000_000;

const POWERS: [u64; 19] = [
    1,
    10,
    100,
    1_000,
    10_000,
    100_000,
    1_000_000,
    10_000_000,
    100_000_000,
    1_000_000_000,
    10_000_000_000,
    100_000_000_000,
    1_000_000_000_000,
    10_000_000_000_000,
    100_000_000_000_000,
    1_000_000_000_000_000,
    10_000_000_000_000_000,
    100_000_000_000_000_000,
    MAX_ATTOSECONDS,
];

// 10^n; 10^18 for an n above 18.
pub fn power(n: u64) -> u64
    ensures { result ≡ 10 ^ min n 18 }
{
    POWERS[n.min(18) as usize]
}

// The attoseconds of one unit of the last of the digits; 1 past the eighteenth.
pub fn scale(digits: u64) -> u64
    ensures { result ≡ scale digits }
{
    power(18_u64.saturating_sub(digits))
}

// Attoseconds cut toward zero to a number of digits.
#[tactic(auto, using(crate::proofs::Scales::scale_pos))]
pub fn cut(attoseconds: u64, digits: u64) -> u64
    ensures { result ≡ cut_to digits attoseconds }
{
    let s = scale(digits);
    attoseconds / s * s
}
