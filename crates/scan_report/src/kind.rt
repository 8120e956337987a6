// What a scan is beside the last kept one, and what scans of each kind count.
ghost use Rattle.std.specs.Prelude.{◌≡◌, ◌+◌, ◌^◌, ◌<◌};
ghost use Rattle.scan_report.specs.Longer.{is_longer};
ghost use Rattle.scans.specs.Tally.{added, counts_of, kind_beside};

use ion::Distance;
use order::Count;
use scans::{Counts, Kind};

// Whether a distance is more than `g` seconds.
fn is_longer(d: Distance, g: u32) -> bool
    ensures { result ≡ is_longer g d }
{
    let gap = g as u64;
    gap < d.seconds || (d.seconds == gap && 0 < d.attoseconds)
}

// By the counts of the last kept one and of the scan.
#[tactic(auto, using(crate::proofs::KindsByDistance::kinds))]
pub(crate) fn kind_beside(w: u32, g: u32, last: Count, count: Count) -> Kind
    ensures { result ≡ kind_beside w g last count }
{
    let d = count.distance(last);
    if d.seconds < w as u64 {
        Kind::Double
    } else if d.order.is_lt() {
        Kind::Backward
    } else if is_longer(d, g) {
        Kind::Gap
    } else {
        Kind::Kept
    }
}

// With a scan of a kind more.
pub(crate) fn counted(c: Counts, kind: Kind) -> Counts
    requires { (c.scans + 1 < 2 ^ 64) × (c.doubles + 1 < 2 ^ 64) × (c.kept + 1 < 2 ^ 64)
        × (c.gaps + 1 < 2 ^ 64) × (c.backward + 1 < 2 ^ 64) }
    ensures { result ≡ added c (counts_of kind) }
{
    let scans = c.scans + 1;
    match kind {
        Kind::Double => Counts {
            scans,
            doubles: c.doubles + 1,
            ..c
        },
        Kind::Kept => Counts {
            scans,
            kept: c.kept + 1,
            ..c
        },
        Kind::Gap => Counts {
            scans,
            kept: c.kept + 1,
            gaps: c.gaps + 1,
            ..c
        },
        Kind::Backward => Counts {
            scans,
            kept: c.kept + 1,
            backward: c.backward + 1,
            ..c
        },
    }
}
