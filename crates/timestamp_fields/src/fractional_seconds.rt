// The fraction of a timestamp's second: in attoseconds, in larger units, and as a decimal.
ghost use Rattle.std.specs.Prelude.{◌≡◌, ◌-◌, ◌≤◌};
ghost use Rattle.ion.specs.Calls.Reads.{attoseconds_field_of, units_of, nanoseconds_of, microseconds_of, milliseconds_of, decimal_field_of};

use crate::field;
use ion::{Decimal, Refusal, Timestamp};
use timestamp::check;

pub fn attoseconds(s: Timestamp) -> Result<u64, Refusal>
    ensures { result ≡ attoseconds_field_of s }
{
    field(s, s.attoseconds)
}

// Whole units of the last of a number of digits.
#[tactic(auto, using(crate::proofs::Cuts::fit), unfolding(ion::specs::Calls::Reads::field_of))]
fn units(s: Timestamp, digits: u64) -> Result<u32, Refusal>
    requires { digits ≤ 9 }
    ensures { result ≡ units_of (18 - digits) s }
{
    check(s)?;
    Ok((s.attoseconds / fraction::scale(digits)) as u32)
}

pub fn nanoseconds(s: Timestamp) -> Result<u32, Refusal>
    ensures { result ≡ nanoseconds_of s }
{
    units(s, 9)
}

pub fn microseconds(s: Timestamp) -> Result<u32, Refusal>
    ensures { result ≡ microseconds_of s }
{
    units(s, 6)
}

pub fn milliseconds(s: Timestamp) -> Result<u32, Refusal>
    ensures { result ≡ milliseconds_of s }
{
    units(s, 3)
}

// The fraction's digits as the coefficient, and minus their number as the exponent.
#[tactic(auto, using(crate::proofs::Cuts::fit), unfolding(ion::specs::Pair::Word::fields_of))]
pub fn fractional_seconds_as_decimal(s: Timestamp) -> Result<Decimal, Refusal>
    ensures { result ≡ decimal_field_of s }
{
    let digits = packed::digits(s.packed_fields);
    let decimal = Decimal {
        negative: false,
        coefficient: s.attoseconds / fraction::scale(digits as u64),
        exponent: -(digits as i64),
    };
    field(s, decimal)
}
