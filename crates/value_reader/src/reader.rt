// The reader of a value.
ghost use Rattle.std.specs.Prelude.{◌≡◌};
ghost use Rattle.ion.specs.Value.ReadValue.{read_value};

use crate::shortest::Shortest;
use ion::{Refusal, Timestamp};

// Reads the value with which `s` begins: its timestamp, and how many bytes it takes. Bytes after it are not read.
#[tactic(auto, using(crate::proofs::Bodies::values))]
pub fn read_value(s: &[u8]) -> Result<(Timestamp, usize), Refusal>
    ensures { result ≡ read_value s.now }
{
    value_decoder::read::<Shortest>(s)
}
