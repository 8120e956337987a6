// Order, equality and distance of two timestamps, the first checked before the second. Each has the Rust's name and its own answer.
#![tactic(auto)]

mod accepted;
mod counts;
mod seconds;

ghost use Rattle.std.specs.Prelude.{◌≡◌, OnOk};
ghost use Rattle.ion.specs.Calls.Accepted.{Accepted};
ghost use Rattle.ion.specs.Calls.Order.{check_both, cmp_of, eq_of, ion_eq_of, ion_cmp_of, distance_of};

use accepted::{distance_of, order_of};
pub use counts::Count;
use ion::{Distance, Refusal, Timestamp};
use std::cmp::Ordering;

// Both checks. That a timestamp is accepted stays a fact in contracts: a type of it would be made of each answer of a check only to
// be taken apart in each definition, which speaks of pairs.
#[tactic(auto, using(crate::proofs::Answers::both))]
fn check_both(s: Timestamp, t: Timestamp) -> Result<Timestamp, Refusal>
    ensures value { result ≡ check_both s t }
    ensures accepted { OnOk result (Accepted s × Accepted t) }
{
    // By tests: an answer of a check goes through memory.
    if !timestamp::is_accepted(s) {
        return timestamp::check(s);
    }
    if !timestamp::is_accepted(t) {
        return timestamp::check(t);
    }
    Ok(t)
}

// By the instants.
#[tactic(auto, unfolding(ion::specs::Calls::Order::cmp_of))]
pub fn cmp(s: Timestamp, t: Timestamp) -> Result<Ordering, Refusal>
    ensures { result ≡ cmp_of s t }
{
    check_both(s, t)?;
    Ok(order_of(s, t))
}

// Whether the instants are equal.
#[tactic(auto, unfolding(ion::specs::Calls::Order::eq_of))]
pub fn eq(s: Timestamp, t: Timestamp) -> Result<bool, Refusal>
    ensures { result ≡ eq_of s t }
{
    check_both(s, t)?;
    Ok(order_of(s, t).is_eq())
}

// Whether the pairs are equal.
#[tactic(auto, unfolding(ion::specs::Calls::Order::ion_eq_of))]
pub fn ion_eq(s: Timestamp, t: Timestamp) -> Result<bool, Refusal>
    ensures { result ≡ ion_eq_of s t }
{
    check_both(s, t)?;
    Ok((s.packed_fields, s.attoseconds) == (t.packed_fields, t.attoseconds))
}

// By the packed words and then by the attoseconds.
#[tactic(auto, unfolding(ion::specs::Calls::Order::ion_cmp_of))]
pub fn ion_cmp(s: Timestamp, t: Timestamp) -> Result<Ordering, Refusal>
    ensures { result ≡ ion_cmp_of s t }
{
    check_both(s, t)?;
    Ok((s.packed_fields, s.attoseconds).cmp(&(t.packed_fields, t.attoseconds)))
}

// The order of the first beside the second, and the size of the difference.
#[tactic(auto, unfolding(ion::specs::Calls::Order::distance_of))]
pub fn distance(s: Timestamp, t: Timestamp) -> Result<Distance, Refusal>
    ensures { result ≡ distance_of s t }
{
    check_both(s, t)?;
    Ok(distance_of(s, t))
}
