// Order and distance of the instants of two accepted timestamps.
ghost use Rattle.std.specs.Prelude.{◌≡◌};
ghost use Rattle.ion.specs.Calls.Accepted.{Accepted};
ghost use Rattle.ion.specs.Pair.Count.{count_of};
ghost use Rattle.std.specs.Ordering.{nat_cmp};
ghost use Rattle.ion.specs.Calls.Order.{distance_of_counts};

use crate::seconds::counts_of_both;
use ion::{Distance, Timestamp};
use packed::SECOND_SHIFT;
use std::cmp::Ordering;

// With the same offset no day is counted: the words cut at the second lie as the instants do. Inlined into `cmp` and `eq`.
#[tactic(auto, using(crate::proofs::CountsInSeconds::shifted))]
#[inline(always)]
pub(crate) fn order_of(s: Timestamp, t: Timestamp) -> Ordering
    requires { Accepted s × Accepted t }
    ensures { result ≡ nat_cmp (count_of s) (count_of t) }
{
    let v = s.packed_fields;
    let w = t.packed_fields;
    let o = packed::raw_offset(v);
    let p = packed::raw_offset(w);
    if o.bits() == p.bits() {
        return (v >> SECOND_SHIFT, s.attoseconds).cmp(&(w >> SECOND_SHIFT, t.attoseconds));
    }
    let (first, second) = counts_of_both(s, t);
    first.order(second)
}

// The distance, by one clock.
#[tactic(auto, using(crate::proofs::CountsInSeconds::shifted))]
pub(crate) fn distance_of(s: Timestamp, t: Timestamp) -> Distance
    requires { Accepted s × Accepted t }
    ensures { result ≡ distance_of_counts (count_of s) (count_of t) }
{
    let (first, second) = counts_of_both(s, t);
    first.distance(second)
}
