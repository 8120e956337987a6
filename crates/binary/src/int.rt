// Port of binary/int.rs: the magnitude of an Int of Ion binary, big-endian, in as few bytes as hold it
// with a clear bit in front; none for 0.
ghost use Rattle.std.specs.Prelude.{◌≡◌, ◌+◌, ◌≤◌, length};
ghost use Rattle.ion.specs.Calls.Output.{put, wrote, Run};
ghost use Rattle.ion.specs.Numbers.Int.{int_count, int, read_int};
ghost use Rattle.ion.specs.Numbers.NumberReads.{int_answer, int_of};

use ion::Refusal;
use output::Encode;

// The number of bytes of `value`, from its leading zeros.
#[tactic(auto, using(crate::proofs::Ints::zeros))]
pub fn encoded_size_of(value: u64) -> usize
    ensures { result ≡ int_count value }
{
    if value == 0 {
        return 0;
    }
    (64 - value.leading_zeros() as usize) / 8 + 1
}

// The magnitude of an Int.
#[derive(Clone, Copy)]
pub struct Int(pub u64);

impl Encode for Int {
    ghost bytes = { λ n. int n.0 };

    #[tactic(auto, using(crate::proofs::Ints::ints))]
    fn encoded_size(self) -> usize {
        encoded_size_of(self.0)
    }

    // The generic `put_places` by its two constants, which are all that this shares with a padded number's.
    #[tactic(auto, using(crate::proofs::Ints::ints))]
    fn encode(self, room: &mut [u8]) {
        output::put_places::<256, 0>(room, self.0);
    }
}

// Writes `value` from index `at` on: `output::write` by the Rust's name.
#[tactic(auto, using(crate::proofs::Ints::ints))]
pub fn write_u64(buf: &mut [u8], at: usize, value: u64) -> Result<usize, Refusal>
    ensures value { result ≡ wrote buf.old at (int value) }
    ensures buffer { buf.new ≡ put buf.old at (int value) }
{
    output::write(buf, at, Int(value))
}

// The most bytes that a number of 64 bits has.
const MOST_BYTES: usize = 9;

// The number whose shortest form is `s`, all of it.
#[tactic(auto, using(crate::proofs::Ints::reading))]
pub fn read_u64(s: &[u8]) -> Option<u64>
    ensures value { result ≡ read_int s.now }
    ensures numbered { int_answer (length s.now) result ≡ int_of s.now }
{
    if MOST_BYTES < s.len() {
        return None;
    }
    let mut value: u64 = 0;
    for byte in s {
        value = value.checked_mul(256)? + *byte as u64;
    }
    (encoded_size_of(value) == s.len()).then_some(value)
}
