// The forms that a reader of values takes.
ghost use Rattle.std.specs.Prelude.{◌≡◌, ℕ, ◌+◌, ◌≤◌, List, drop, length, Option, Some, Result, IfOk, IfSome};
ghost use Rattle.ion.specs.Value.Decode.{Numbers};
ghost use Rattle.ion.specs.declared.refusal.Refusal.{Refusal};

use ion::{NumberError, Refusal, SignedMagnitude};

// The most minutes of an offset.
pub const MAX_MINUTES: u64 = 1439;

// The largest field: the most that the word's widest, the year, can hold.
pub const MAX_FIELD: u64 = 16383;

pub trait Forms {
    ghost numbers: { Numbers };

    ghost fraction: { List ℕ → Option (ℕ × ℕ) };

    ghost length_of: { List ℕ → Result (ℕ × ℕ) Refusal };

    // The minutes of an offset, with which `s` begins, and how many bytes they take.
    fn read_minutes(s: &[u8]) -> Result<(SignedMagnitude, usize), NumberError>
        ensures value { result ≡ numbers.int 1439 s.now }
        ensures bounds { IfOk result (λ x. (x.0.magnitude ≤ 1439) × (x.1 ≤ length s.now)) };

    // The field at index `at`, and how many bytes it takes.
    fn read_field(s: &[u8], at: usize) -> Result<(u64, usize), NumberError>
        ensures value { result ≡ numbers.uint 16383 (drop at s.now) }
        ensures bounds { IfOk result (λ x. (x.0 ≤ 16383) × (at + x.1 ≤ length s.now)) };

    // The digits and the coefficient of the fraction that the bytes from index `at` on are, all of them; no bytes are none.
    fn read_fraction(s: &[u8], at: usize) -> Option<(u32, u64)>
        ensures value { result ≡ fraction (drop at s.now) }
        ensures bounds { IfSome result (λ x. (x.0 ≤ 63) × (x.0 ≡ 0 → x.1 ≡ 0)) }
        ensures none { length s.now ≤ at → result ≡ Some (0, 0) };

    // The length of a body after 6E, with which `s` begins, and how many bytes it takes.
    fn read_length(s: &[u8]) -> Result<(usize, usize), Refusal>
        ensures value { result ≡ length_of s.now }
        ensures room { IfOk result (λ x. x.1 ≤ length s.now) };
}
