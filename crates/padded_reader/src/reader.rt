// The reader of a value.
ghost use Rattle.std.specs.Prelude.{◌≡◌};
ghost use Rattle.ion.specs.Value.ReadPaddedValue.{read_padded_value};

use crate::padded::Padded;
use ion::{Refusal, Timestamp};

// Reads the value with which `s` begins, in any of its forms: its timestamp, and how many bytes it takes. Bytes after it are not read.
#[tactic(auto, using(crate::proofs::PaddedValues::values))]
pub fn read_padded_value(s: &[u8]) -> Result<(Timestamp, usize), Refusal>
    ensures { result ≡ read_padded_value s.now }
{
    value_decoder::read::<Padded>(s)
}
