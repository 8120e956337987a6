// Fields at fixed places of a record's bytes. A byte past the end reads as 0.
ghost use Rattle.std.specs.Prelude.{◌≡◌, ◌<◌, get_or};
ghost use Rattle.test_answers.specs.Fields.{half_at, word_at, recorded_pair};

use ion::Timestamp;

pub fn byte_at(s: &[u8], at: usize) -> u8
    ensures { result ≡ get_or s.now at 0 }
{
    s.get(at).copied().unwrap_or(0)
}

#[tactic(auto, unfolding(crate::specs::Fields::half_at))]
pub fn half_at(s: &[u8], at: usize) -> u32
    requires { at < 1000 }
    ensures { result ≡ half_at s.now at }
{
    u32::from_be_bytes([
        byte_at(s, at),
        byte_at(s, at + 1),
        byte_at(s, at + 2),
        byte_at(s, at + 3),
    ])
}

#[tactic(auto, unfolding(crate::specs::Fields::word_at))]
pub fn word_at(s: &[u8], at: usize) -> u64
    requires { at < 500 }
    ensures { result ≡ word_at s.now at }
{
    u64::from(half_at(s, at)) * (1 << 32) + u64::from(half_at(s, at + 4))
}

#[tactic(auto, unfolding(crate::specs::Fields::recorded_pair))]
pub fn pair_at(s: &[u8], at: usize) -> Timestamp
    requires { at < 400 }
    ensures { result ≡ recorded_pair s.now at }
{
    Timestamp {
        packed_fields: word_at(s, at),
        attoseconds: word_at(s, at + 8),
    }
}
