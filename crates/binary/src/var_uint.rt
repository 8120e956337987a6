// VarUInt of Ion binary: seven bits a byte, highest group first, bit 0x80 marks the last byte.
ghost use Rattle.std.specs.Prelude.{◌≡◌, ◌+◌, ◌-◌, ◌*◌, ◌%◌, ◌^◌, ◌≤◌, ◌<◌, length, drop};
ghost use Rattle.ion.specs.Calls.Output.{put, wrote, Run};
ghost use Rattle.ion.specs.Numbers.VarUInt.{groups, group_count, varuint, up_to, scan_from, zero_first, read_var_uint};
ghost use Rattle.ion.specs.Numbers.PaddedNumbers.{read_padded_var_uint};
ghost use Rattle.ion.specs.Numbers.NumberReads.{var_uint_answer, var_uint_of, padded_var_uint_of};

use ion::{NumberError, Refusal};
use output::Encode;

// The bit that marks the last byte.
pub const END_FLAG: u8 = 0x80;

// The number of bytes of `value` as a VarUInt, from its leading zeros.
#[tactic(auto, using(crate::proofs::VarUInts::zeros_of_word))]
pub fn encoded_size_of(value: u64) -> usize
    ensures { result ≡ group_count value }
{
    let bits_used = 64 - value.leading_zeros() as usize;
    ((bits_used + 6) / 7).max(1)
}

// Fills `room` with as many groups of `value`.
#[tactic(auto, using(crate::proofs::Groups::groups_stored))]
pub(crate) fn put_groups(room: &mut [u8], value: u64)
    requires { 1 ≤ length room.old }
    ensures { room.new ≡ groups (length room.old) value }
{
    let last = room.len() - 1;
    output::put_places::<128, 0>(&mut room[..last], value / 128);
    room[last] = END_FLAG + (value % 128) as u8;
}

// A number as a VarUInt.
#[derive(Clone, Copy)]
pub struct VarUInt(pub u64);

impl Encode for VarUInt {
    ghost bytes = { λ n. varuint n.0 };

    #[tactic(auto, using(crate::proofs::VarUInts::varuints))]
    fn encoded_size(self) -> usize {
        encoded_size_of(self.0)
    }

    #[tactic(auto, using(crate::proofs::VarUInts::varuints))]
    fn encode(self, room: &mut [u8]) {
        put_groups(room, self.0);
    }
}

// Writes `value` as a VarUInt from index `at` on: `output::write` by the Rust's name.
#[tactic(auto, using(crate::proofs::VarUInts::varuints))]
pub fn write_u64(buf: &mut [u8], at: usize, value: u64) -> Result<usize, Refusal>
    ensures value { result ≡ wrote buf.old at (varuint value) }
    ensures buffer { buf.new ≡ put buf.old at (varuint value) }
{
    output::write(buf, at, VarUInt(value))
}

// What the groups give with which `s` begins, below the `taken` groups of `start`; there may be `most` groups in all.
#[tactic(auto, using(crate::proofs::Groups::scanning))]
pub(crate) fn read_groups(
    s: &[u8],
    start: u64,
    taken: usize,
    most: usize,
    limit: u64,
) -> Result<(u64, usize), NumberError>
    requires { (start < 128 ^ taken) × (taken ≤ most) × (most ≤ 10) }
    ensures { result ≡ scan_from limit (most - taken) start taken s.now }
{
    let mut value = start;
    let mut count = taken;
    for byte in s {
        if count == most {
            return Err(NumberError::Bad);
        }
        count += 1;
        if END_FLAG <= *byte {
            return last_group(value, *byte, count, limit);
        }
        // The last of ten groups, for which 64 bits have no room.
        if count == most {
            return Err(NumberError::Bad);
        }
        value = value * 128 + *byte as u64;
    }
    if count == most {
        return Err(NumberError::Bad);
    }
    Err(NumberError::Cut)
}

// The value of `count` groups, of which `last` is the last and `higher` are the others.
fn last_group(higher: u64, last: u8, count: usize, limit: u64) -> Result<(u64, usize), NumberError>
    ensures { result ≡ up_to limit (higher * 128 + last % 128) count }
{
    if limit / 128 < higher {
        return Err(NumberError::Bad);
    }
    let value = higher * 128 + (last % 128) as u64;
    if limit < value {
        return Err(NumberError::Bad);
    }
    Ok((value, count))
}

// Whether `s` begins with a 0 that is not the last of it.
fn zero_first(s: &[u8]) -> bool
    ensures { result ≡ zero_first s.now }
{
    matches!(s, [0, _, ..])
}

// Reads the VarUInt at index `at`, in its shortest form and not above `limit`: the number and how many bytes it took.
#[tactic(auto, using(crate::proofs::VarUInts::reading), unfolding(ion::specs::Numbers::VarUInt::read_var_uint))]
pub fn read_u64(s: &[u8], at: usize, limit: u64) -> Result<(u64, usize), NumberError>
    ensures value { result ≡ read_var_uint limit (drop at s.now) }
    ensures numbered { var_uint_answer result ≡ var_uint_of limit (drop at s.now) }
{
    let rest = s.get(at..).ok_or(NumberError::Cut)?;
    if zero_first(rest) {
        return Err(NumberError::Bad);
    }
    read_groups(rest, 0, 0, encoded_size_of(limit), limit)
}

// The most bytes of a VarUInt or a VarInt in any form.
pub const MOST_GROUPS: usize = 10;

// Reads the VarUInt at index `at`, in any form of up to ten bytes and not above `limit`: the number and how many bytes it took.
#[inline(always)]
#[tactic(auto, using(crate::proofs::VarUInts::reading), unfolding(ion::specs::Numbers::PaddedNumbers::read_padded_var_uint))]
pub fn read_padded_u64(s: &[u8], at: usize, limit: u64) -> Result<(u64, usize), NumberError>
    ensures value { result ≡ read_padded_var_uint limit (drop at s.now) }
    ensures numbered { var_uint_answer result ≡ padded_var_uint_of limit (drop at s.now) }
{
    let rest = s.get(at..).ok_or(NumberError::Cut)?;
    read_groups(rest, 0, 0, MOST_GROUPS, limit)
}
