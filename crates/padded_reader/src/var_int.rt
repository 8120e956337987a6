// VarInt of Ion binary, in any form of up to ten bytes.
ghost use Rattle.std.specs.Prelude.{◌≡◌, ◌+◌, ◌≤◌, length, drop, IfOk};
ghost use Rattle.ion.specs.Numbers.PaddedNumbers.{unlimited, read_padded_var_int};
ghost use Rattle.padded_reader.specs.Numbers.{saturated};

use binary::var_int::SIGN;
use binary::var_uint::{END_FLAG, MOST_GROUPS};
use ion::{NumberError, SignedMagnitude};
use value_decoder::MAX_MINUTES;

// Reads the VarInt at index `at`: its sign, its magnitude or the largest of 64 bits where that has more, and how many bytes it took.
#[inline(always)]
#[tactic(auto, using(crate::proofs::Saturation::reading))]
pub(crate) fn read_i64(s: &[u8], at: usize) -> Result<(SignedMagnitude, usize), NumberError>
    ensures value { result ≡ saturated (read_padded_var_int unlimited (drop at s.now)) }
    ensures room { IfOk result (λ x. at + x.1 ≤ length s.now) }
{
    let b = *s.get(at).ok_or(NumberError::Cut)?;
    let negative = SIGN <= b % 128;
    let mut magnitude = (b % 64) as u64;
    if END_FLAG <= b {
        return Ok((
            SignedMagnitude {
                negative,
                magnitude,
            },
            1,
        ));
    }
    for count in 1..MOST_GROUPS {
        let b = *s.get(at + count).ok_or(NumberError::Cut)?;
        magnitude = magnitude
            .saturating_mul(128)
            .saturating_add((b % 128) as u64);
        if END_FLAG <= b {
            return Ok((
                SignedMagnitude {
                    negative,
                    magnitude,
                },
                count + 1,
            ));
        }
    }
    Err(NumberError::Bad)
}

// Reads the minutes of an offset, with which `s` begins.
#[tactic(auto, using(crate::proofs::Saturation::minutes))]
pub(crate) fn read_minutes(s: &[u8]) -> Result<(SignedMagnitude, usize), NumberError>
    ensures value { result ≡ read_padded_var_int 1439 s.now }
    ensures bounds { IfOk result (λ x. (x.0.magnitude ≤ 1439) × (x.1 ≤ length s.now)) }
{
    let (minutes, n) = read_i64(s, 0)?;
    if MAX_MINUTES < minutes.magnitude {
        return Err(NumberError::Bad);
    }
    Ok((minutes, n))
}
