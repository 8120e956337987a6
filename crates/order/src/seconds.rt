// Counts of timestamps: of two by the local clock of the first, the difference of their offsets added to the second; of one in UTC.
ghost use Rattle.std.specs.Prelude.{◌≡◌, ◌+◌, ◌*◌, ◌^◌, ◌<◌, nat_abs};
ghost use Rattle.ion.specs.Calls.Accepted.{time_in, Accepted};
ghost use Rattle.ion.specs.Pair.Count.{count_of};
ghost use Rattle.ion.specs.Calendar.Shift.{minute_number};
ghost use Rattle.order.specs.Local.{IsLocalFields, offset_difference, count_by};

use crate::counts::Count;
use ion::{Fields, Timestamp, offset};

// Minutes from 0000-01-01T00:00 by the local clock.
#[tactic(auto, using(crate::proofs::Clocks::minutes_below))]
fn minute_number(f: Fields) -> u64
    requires { IsLocalFields f }
    ensures value { result ≡ minute_number (time_in f) }
    ensures bound { result < 2 ^ 33 }
{
    calendar::day_number(f.time().date()) * 1440 + (f.hour * 60 + f.minute) as u64
}

// How many minutes the local clock of the first is ahead of that of the second.
fn offset_difference(f: Fields, g: Fields) -> i32
    requires { IsLocalFields f × IsLocalFields g }
    ensures { result ≡ offset_difference f g }
{
    let o = offset::minutes_of(offset::offset_of(f.offset));
    let p = offset::minutes_of(offset::offset_of(g.offset));
    o.minus(p)
}

// The count by a clock that is a number of minutes ahead of the local one.
#[tactic(auto, using(crate::proofs::Clocks::moved))]
fn count_by(f: Fields, attoseconds: u64, ahead: i32) -> Count
    requires fields { IsLocalFields f }
    requires attoseconds { attoseconds < 10 ^ 18 }
    requires ahead { nat_abs ahead < 2880 }
    ensures { result ≡ count_by f attoseconds ahead }
{
    let minutes = (minute_number(f) as i64 + ahead as i64) as u64;
    Count::new(minutes * 60 + f.second as u64, attoseconds)
}

// The counts of two accepted timestamps by the local clock of the first: both are as far from UTC's.
#[tactic(auto, using(crate::proofs::Clocks::ahead))]
pub(crate) fn counts_of_both(s: Timestamp, t: Timestamp) -> (Count, Count)
    requires { Accepted s × Accepted t }
    ensures { result.0 + count_of t ≡ result.1 + count_of s }
{
    let f = packed::unpack(s.packed_fields);
    let g = packed::unpack(t.packed_fields);
    let ahead = offset_difference(f, g);
    let first = count_by(f, s.attoseconds, 0);
    let second = count_by(g, t.attoseconds, ahead);
    (first, second)
}

impl Count {
    // Of an accepted timestamp.
    #[tactic(auto, using(crate::proofs::Clocks::in_utc), unfolding(ion::specs::Pair::Count::count_of))]
    pub fn of_accepted(s: Timestamp) -> Count
        requires { Accepted s }
        ensures { result ≡ count_of s }
    {
        let f = packed::unpack(s.packed_fields);
        let o = offset::minutes_of(offset::offset_of(f.offset));
        count_by(f, s.attoseconds, o.negated().minutes())
    }
}
