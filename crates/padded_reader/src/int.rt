// Int of Ion binary, of any number of bytes.
ghost use Rattle.std.specs.Prelude.{◌≡◌};
ghost use Rattle.padded_reader.specs.Numbers.{padded_int};

use ion::SignedMagnitude;

// The bit that marks a negative number, in the first byte.
const SIGN: u8 = 0b1000_0000;

// No bytes are this.
const ZERO: SignedMagnitude = SignedMagnitude {
    negative: false,
    magnitude: 0,
};

// The sign and the magnitude of the Int that `s` is, all of it, where 64 bits hold the magnitude.
#[tactic(auto, using(crate::proofs::IntSteps::reading))]
pub(crate) fn read_u64(s: &[u8]) -> Option<SignedMagnitude>
    ensures { result ≡ padded_int s.now }
{
    let [first, rest @ ..] = s else {
        return Some(ZERO);
    };
    let mut magnitude = (*first % 128) as u64;
    for byte in rest {
        magnitude = magnitude.checked_mul(256)? + *byte as u64;
    }
    Some(SignedMagnitude {
        negative: SIGN <= *first,
        magnitude,
    })
}
