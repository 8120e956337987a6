// Port of binary/decimal.rs: a decimal that is not below zero, as its exponent and its coefficient.
ghost use Rattle.std.specs.Prelude.{◌&&◌, ◌≡◌, ◌+◌, ◌≤◌, eqb, length, nat_abs};
ghost use Rattle.ion.specs.Calls.Output.{put, wrote, Run};
ghost use Rattle.ion.specs.Numbers.VarInt.{signed, varint};
ghost use Rattle.ion.specs.Numbers.Decimal.{decimal_bytes};

use crate::int::{self, Int};
use crate::var_int;
use crate::var_int::VarInt;
use ion::Refusal;
use output::Encode;

// A coefficient and an exponent.
#[derive(Clone, Copy)]
pub struct UnsignedDecimal {
    pub coefficient: u64,
    pub exponent: i64,
}

impl UnsignedDecimal {
    // Zero with exponent 0, which has no bytes.
    fn is_zero(self) -> bool
        ensures { result ≡ (eqb self.coefficient 0 && eqb (nat_abs self.exponent) 0) }
    {
        (self.coefficient == 0) & (integers::unsigned_abs(self.exponent) == 0)
    }

    #[tactic(auto, using(crate::proofs::VarInts::passed), unfolding(ion::specs::Numbers::VarInt::varint))]
    fn parts(self) -> (VarInt, Int)
        ensures exponent { signed result.0.0.negative result.0.0.magnitude ≡ varint self.exponent }
        ensures coefficient { result.1.0 ≡ self.coefficient }
    {
        (
            VarInt(var_int::parts_of(self.exponent)),
            Int(self.coefficient),
        )
    }
}

impl Encode for UnsignedDecimal {
    ghost bytes = { λ d. decimal_bytes d.coefficient d.exponent };

    #[tactic(auto, using(crate::proofs::Decimals::decimals))]
    fn encoded_size(self) -> usize {
        encoded_size_of(self.coefficient, self.exponent)
    }

    #[tactic(auto, using(crate::proofs::Decimals::decimals))]
    fn encode(self, room: &mut [u8]) {
        if !self.is_zero() {
            self.parts().encode(room);
        }
    }
}

// The number of bytes of a coefficient and an exponent.
#[tactic(auto, using(crate::proofs::Decimals::decimals))]
pub fn encoded_size_of(coefficient: u64, exponent: i64) -> usize
    ensures { result ≡ length (decimal_bytes coefficient exponent) }
{
    let item = UnsignedDecimal {
        coefficient,
        exponent,
    };
    if item.is_zero() {
        return 0;
    }
    var_int::encoded_size_of(integers::unsigned_abs(exponent)) + int::encoded_size_of(coefficient)
}

// Writes a decimal from index `at` on.
#[tactic(auto, using(crate::proofs::Decimals::decimals))]
pub fn encode_decimal(
    buf: &mut [u8],
    at: usize,
    coefficient: u64,
    exponent: i64,
) -> Result<usize, Refusal>
    ensures value { result ≡ wrote buf.old at (decimal_bytes coefficient exponent) }
    ensures buffer { buf.new ≡ put buf.old at (decimal_bytes coefficient exponent) }
{
    let item = UnsignedDecimal {
        coefficient,
        exponent,
    };
    output::write(buf, at, item)
}
