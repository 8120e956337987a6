// The fraction of a body: an exponent, and what is left as its coefficient.
ghost use Rattle.std.specs.Prelude.{◌≡◌, ◌≤◌, Some, length, drop, IfSome};
ghost use Rattle.padded_reader.specs.Fractions.{decimal_of, coefficient_units, padded_fraction};

use crate::{int, var_int};
use ion::SignedMagnitude;

// The most digits of a fraction.
const MAX_DIGITS: u64 = 18;

// The digits and the coefficient of a decimal.
fn units(exponent: SignedMagnitude, coefficient: SignedMagnitude) -> Option<(u32, u64)>
    ensures value { result ≡ coefficient_units (decimal_of exponent coefficient) }
    ensures bounds { IfSome result (λ x. (x.0 ≤ 18) × (x.0 ≡ 0 → x.1 ≡ 0)) }
{
    if coefficient.negative && coefficient.magnitude != 0 {
        return None;
    }
    if !exponent.negative || exponent.magnitude == 0 {
        return (coefficient.magnitude == 0).then_some((0, 0));
    }
    if MAX_DIGITS < exponent.magnitude {
        return None;
    }
    Some((exponent.magnitude as u32, coefficient.magnitude))
}

// The fraction that the bytes from index `at` on are, all of them: its digits and its coefficient.
#[tactic(auto, using(crate::proofs::FractionSteps::reading))]
pub(crate) fn read_fraction(s: &[u8], at: usize) -> Option<(u32, u64)>
    ensures value { result ≡ padded_fraction (drop at s.now) }
    ensures bounds { IfSome result (λ x. (x.0 ≤ 18) × (x.0 ≡ 0 → x.1 ≡ 0)) }
    ensures none { length s.now ≤ at → result ≡ Some (0, 0) }
{
    if s.len() <= at {
        return Some((0, 0));
    }
    let (exponent, n) = var_int::read_i64(s, at).ok()?;
    let coefficient = int::read_u64(&s[at + n..])?;
    units(exponent, coefficient)
}
