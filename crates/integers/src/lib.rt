// Laws on signed numbers, and the one function that takes the size of one.
#![tactic(auto)]

ghost use Rattle.std.specs.Prelude.{◌≡◌, nat_abs};

// The size of `value`, of the lowest too, which has no opposite of 64 bits. It is std's: the promise stands here so that a wrong size
// is refused in this crate.
pub fn unsigned_abs(value: i64) -> u64
    ensures { result ≡ nat_abs value }
{
    value.unsigned_abs()
}
