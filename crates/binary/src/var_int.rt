// VarInt of Ion binary: as VarUInt, but the first byte holds six bits, and the sign in bit 0x40.
ghost use Rattle.std.specs.Prelude.{◌≡◌, true, ◌+◌, ◌≤◌, nat_abs, length, drop};
ghost use Rattle.ion.specs.Calls.Output.{put, wrote, Run};
ghost use Rattle.ion.specs.Numbers.VarInt.{is_negative, signed_count, signed, varint, if_shortest, read_var_int};
ghost use Rattle.ion.specs.Numbers.NumberReads.{var_int_answer, var_int_of};

use crate::var_uint;
use crate::var_uint::END_FLAG;
use ion::{NumberError, Refusal, SignedMagnitude};
use output::Encode;

// The bit that marks a negative number, in the first byte.
pub const SIGN: u8 = 0b0100_0000;

// Which no i64 is.
pub const NEGATIVE_ZERO: SignedMagnitude = SignedMagnitude {
    negative: true,
    magnitude: 0,
};

// The sign and the size of `value`, of the lowest i64 too.
pub fn parts_of(value: i64) -> SignedMagnitude
    ensures negative { result.negative ≡ is_negative value }
    ensures magnitude { result.magnitude ≡ nat_abs value }
{
    SignedMagnitude {
        negative: value < 0,
        magnitude: integers::unsigned_abs(value),
    }
}

// The number of bytes of a magnitude with the sign's bit in front, from its leading zeros.
#[tactic(auto, using(crate::proofs::VarInts::zeros_signed))]
pub fn encoded_size_of(magnitude: u64) -> usize
    ensures { result ≡ signed_count magnitude }
{
    (64 - magnitude.leading_zeros() as usize) / 7 + 1
}

// A sign and a magnitude as a VarInt.
#[derive(Clone, Copy)]
pub struct VarInt(pub SignedMagnitude);

impl Encode for VarInt {
    ghost bytes = { λ n. signed n.0.negative n.0.magnitude };

    #[tactic(auto, using(crate::proofs::VarInts::signs))]
    fn encoded_size(self) -> usize {
        encoded_size_of(self.0.magnitude)
    }

    #[tactic(auto, using(crate::proofs::VarInts::signs))]
    fn encode(self, room: &mut [u8]) {
        var_uint::put_groups(room, self.0.magnitude);
        if self.0.negative {
            room[0] += SIGN;
        }
    }
}

// Writes a sign and a magnitude as a VarInt from index `at` on, for the two below too.
#[tactic(auto, using(crate::proofs::VarInts::signs))]
pub fn write_parts(buf: &mut [u8], at: usize, p: SignedMagnitude) -> Result<usize, Refusal>
    ensures value { result ≡ wrote buf.old at (signed p.negative p.magnitude) }
    ensures buffer { buf.new ≡ put buf.old at (signed p.negative p.magnitude) }
{
    output::write(buf, at, VarInt(p))
}

// Writes `value` as a VarInt from index `at` on.
#[tactic(auto, using(crate::proofs::VarInts::passed), unfolding(ion::specs::Numbers::VarInt::varint))]
pub fn write_i64(buf: &mut [u8], at: usize, value: i64) -> Result<usize, Refusal>
    ensures value { result ≡ wrote buf.old at (varint value) }
    ensures buffer { buf.new ≡ put buf.old at (varint value) }
{
    write_parts(buf, at, parts_of(value))
}

// Writes negative zero.
pub fn write_negative_zero(buf: &mut [u8], at: usize) -> Result<usize, Refusal>
    ensures value { result ≡ wrote buf.old at (signed true 0) }
    ensures buffer { buf.new ≡ put buf.old at (signed true 0) }
{
    write_parts(buf, at, NEGATIVE_ZERO)
}

// Reads the VarInt at index `at`, in its shortest form and of a magnitude not above `limit`: the number and how many bytes
// it took.
#[tactic(auto, using(crate::proofs::VarInts::reading))]
pub fn read_i64(s: &[u8], at: usize, limit: u64) -> Result<(SignedMagnitude, usize), NumberError>
    ensures value { result ≡ read_var_int limit (drop at s.now) }
    ensures numbered { var_int_answer result ≡ var_int_of limit (drop at s.now) }
{
    let b = *s.get(at).ok_or(NumberError::Cut)?;
    let negative = SIGN <= b % 128;
    let first = (b % 64) as u64;
    if END_FLAG <= b {
        if limit < first {
            return Err(NumberError::Bad);
        }
        return Ok((
            SignedMagnitude {
                negative,
                magnitude: first,
            },
            1,
        ));
    }
    let most = encoded_size_of(limit);
    if_shortest(
        negative,
        var_uint::read_groups(&s[at + 1..], first, 1, most, limit),
    )
}

// A sign with a magnitude that was read, where it took no more bytes than both have.
fn if_shortest(
    negative: bool,
    read: Result<(u64, usize), NumberError>,
) -> Result<(SignedMagnitude, usize), NumberError>
    ensures { result ≡ if_shortest negative read }
{
    let (magnitude, n) = read?;
    if encoded_size_of(magnitude) != n {
        return Err(NumberError::Bad);
    }
    Ok((
        SignedMagnitude {
            negative,
            magnitude,
        },
        n,
    ))
}
