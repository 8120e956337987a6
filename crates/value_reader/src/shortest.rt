// Numbers in their shortest form, as the writer has them.
ghost use Rattle.ion.specs.Value.Decode.{shortest, decode_fraction};
ghost use Rattle.ion.specs.Value.ReadValue.{read_length};

use binary::var_uint::END_FLAG;
use binary::{int, var_int, var_uint};
use ion::{NumberError, Refusal, SignedMagnitude};
use timestamp_binary::{MAX_BODY_LENGTH, MAX_INLINE_LENGTH};
use value_decoder::{Forms, MAX_FIELD, MAX_MINUTES};

// The byte of the shortest length that follows a type descriptor, and of the longest.
const MIN_LENGTH: u8 = END_FLAG + MAX_INLINE_LENGTH as u8 + 1;

const MAX_LENGTH: u8 = END_FLAG + MAX_BODY_LENGTH as u8;

pub(crate) struct Shortest;

impl Forms for Shortest {
    ghost numbers = { shortest };

    ghost fraction = { decode_fraction };

    ghost length_of = { read_length };

    #[tactic(auto, using(crate::proofs::FormSteps::numbers))]
    fn read_minutes(s: &[u8]) -> Result<(SignedMagnitude, usize), NumberError> {
        var_int::read_i64(s, 0, MAX_MINUTES)
    }

    #[tactic(auto, using(crate::proofs::FormSteps::numbers))]
    fn read_field(s: &[u8], at: usize) -> Result<(u64, usize), NumberError> {
        var_uint::read_u64(s, at, MAX_FIELD)
    }

    #[tactic(auto, using(crate::proofs::FormSteps::fractions))]
    fn read_fraction(s: &[u8], at: usize) -> Option<(u32, u64)> {
        if s.len() <= at {
            return Some((0, 0));
        }
        let (exponent, n) = var_int::read_i64(s, at, 63).ok()?;
        if !exponent.negative || exponent.magnitude == 0 {
            return None;
        }
        let coefficient = int::read_u64(&s[at + n..])?;
        Some((exponent.magnitude as u32, coefficient))
    }

    #[tactic(auto, unfolding(ion::specs::Value::ReadValue::read_length))]
    fn read_length(s: &[u8]) -> Result<(usize, usize), Refusal> {
        match s {
            [] => Err(Refusal::InputEnds),
            [c @ MIN_LENGTH..=MAX_LENGTH, ..] => Ok(((c - END_FLAG) as usize, 1)),
            _ => Err(Refusal::Body),
        }
    }
}
