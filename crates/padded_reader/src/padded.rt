// Numbers in every form that the Ion specification allows.
ghost use Rattle.ion.specs.Value.ReadPaddedValue.{padded, read_padded_length};
ghost use Rattle.padded_reader.specs.Fractions.{padded_fraction};

use crate::{fractions, var_int};
use binary::var_uint;
use ion::{NumberError, Refusal, SignedMagnitude};
use value_decoder::{Forms, MAX_FIELD};

// The longest body that a value may have.
const MAX_LENGTH: u64 = 64;

pub(crate) struct Padded;

impl Forms for Padded {
    ghost numbers = { padded };

    ghost fraction = { padded_fraction };

    ghost length_of = { read_padded_length };

    fn read_minutes(s: &[u8]) -> Result<(SignedMagnitude, usize), NumberError> {
        var_int::read_minutes(s)
    }

    fn read_field(s: &[u8], at: usize) -> Result<(u64, usize), NumberError> {
        var_uint::read_padded_u64(s, at, MAX_FIELD)
    }

    fn read_fraction(s: &[u8], at: usize) -> Option<(u32, u64)> {
        fractions::read_fraction(s, at)
    }

    #[tactic(auto, unfolding(ion::specs::Value::ReadPaddedValue::read_padded_length))]
    fn read_length(s: &[u8]) -> Result<(usize, usize), Refusal> {
        match var_uint::read_padded_u64(s, 0, MAX_LENGTH) {
            Ok((length, n)) => Ok((length as usize, n)),
            Err(NumberError::Cut) => Err(Refusal::InputEnds),
            Err(NumberError::Bad) => Err(Refusal::Body),
        }
    }
}
