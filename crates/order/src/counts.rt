// Counts of attoseconds.
ghost use Rattle.std.specs.Prelude.{◌≡◌, ◌+◌, ◌*◌, ◌^◌, ◌≤◌, ◌<◌};
ghost use Rattle.std.specs.Ordering.{nat_cmp};
ghost use Rattle.ion.specs.Calls.Order.{size_of_difference, distant, distance_of_counts};

use ion::{Distance, MAX_ATTOSECONDS};
use std::cmp::Ordering;
use std::marker::Model;

// Whole seconds and the attoseconds after them. In a contract it is the number of attoseconds.
#[derive(Clone, Copy)]
pub struct Count {
    seconds: u64,
    attoseconds: u64,
}

impl Model for Count {
    ghost use Rattle.std.specs.Prelude.{ℕ, ◌+◌, ◌*◌, ◌/◌, ◌%◌, ◌^◌, ◌<◌};

    ghost Value = { ℕ };

    ghost view = { λ c. c.seconds * 10 ^ 18 + c.attoseconds };

    ghost invariant = { λ c. c.attoseconds < 10 ^ 18 };

    ghost inverse = { λ n. record { seconds = n / 10 ^ 18; attoseconds = n % 10 ^ 18 } };
}

impl Count {
    pub const ZERO: Count = Count {
        seconds: 0,
        attoseconds: 0,
    };

    // For the crates above, as `of_accepted`: attoseconds are a number that anyone may have, so their bound stays a fact.
    pub fn new(seconds: u64, attoseconds: u64) -> Count
        requires { attoseconds < 10 ^ 18 }
        ensures { result ≡ seconds * 10 ^ 18 + attoseconds }
    {
        Count {
            seconds,
            attoseconds,
        }
    }

    // By the seconds, and then by the attoseconds.
    #[tactic(auto, using(crate::proofs::CountsInSeconds::counts))]
    pub fn order(self, other: Count) -> Ordering
        ensures { result ≡ nat_cmp self other }
    {
        (self.seconds, self.attoseconds).cmp(&(other.seconds, other.attoseconds))
    }

    // The distance with a given order, of two counts of which the first is not earlier.
    fn distance_by(self, order: Ordering, other: Count) -> Distance
        requires { other ≤ self }
        ensures { result ≡ distant order (size_of_difference self other) }
    {
        if other.attoseconds <= self.attoseconds {
            return Distance {
                order,
                seconds: self.seconds - other.seconds,
                attoseconds: self.attoseconds - other.attoseconds,
            };
        }
        Distance {
            order,
            seconds: self.seconds - other.seconds - 1,
            attoseconds: self.attoseconds + MAX_ATTOSECONDS - other.attoseconds,
        }
    }

    // The distance from another, of which either may be the earlier.
    #[tactic(auto, using(crate::proofs::CountsInSeconds::turned))]
    pub fn distance(self, other: Count) -> Distance
        ensures { result ≡ distance_of_counts self other }
    {
        let order = self.order(other);
        match order {
            Ordering::Less => other.distance_by(order, self),
            _ => self.distance_by(order, other),
        }
    }
}
