// The scans of a file tallied one after another.
ghost use Rattle.std.specs.Prelude.{◌≡◌, ◌<◌, []};
ghost use Rattle.ion.specs.Calls.Accepted.{Accepted};
ghost use Rattle.ion.specs.Pair.Count.{count_of};
ghost use Rattle.scans.specs.Tally.{kind_of, last_after, place_of};
ghost use Rattle.scan_report.specs.Tallied.{TalliedTo};

use crate::kind::{counted, kind_beside};
use crate::last_kept::{LastKept, POST_COUNT};
use ion::Refusal;
use order::Count;
use scan_binary::Scans;
use scans::{Counts, Kind, Scan};

const NO_COUNTS: Counts = Counts {
    scans: 0,
    doubles: 0,
    kept: 0,
    gaps: 0,
    backward: 0,
};

// What `x` is, whose post has that place.
#[tactic(auto, using(scan_laws::proofs::Tallies::places), unfolding(scans::specs::Tally::kind_of))]
fn kind_of(last: &LastKept, place: usize, w: u32, g: u32, x: Scan, count: Count) -> Kind
    requires place { place ≡ place_of x last.now }
    requires room { place < 256 }
    requires counted { count ≡ count_of x.stamp }
    ensures { result ≡ kind_of w g last.now x }
{
    if place == last.len() {
        return Kind::Kept;
    }
    kind_beside(w, g, last.count(place), count)
}

// What `x` is, whose post has that place; a kept one takes it.
fn take_scan(last: &mut LastKept, place: usize, w: u32, g: u32, x: Scan) -> Kind
    requires place { place ≡ place_of x last.old }
    requires room { place < 256 }
    requires accepted { Accepted x.stamp }
    ensures kind { result ≡ kind_of w g last.old x }
    ensures last { last.new ≡ last_after (kind_of w g last.old x) x last.old }
{
    let count = Count::of_accepted(x.stamp);
    let kind = kind_of(last, place, w, g, x, count);
    match kind {
        Kind::Double => {}
        _ => last.keep(place, x, count),
    }
    kind
}

// The counts of a file, or the refusal of a 257th post or of the file's damage; and the last kept scans.
pub(crate) fn tally(s: &[u8], w: u32, g: u32, last: &mut LastKept) -> Result<Counts, Refusal>
    requires { last.old ≡ [] }
    ensures { TalliedTo w g s.now last.new result }
{
    let mut counts = NO_COUNTS;
    for scan in Scans::new(s) {
        let x = scan?;
        let place = last.place(x);
        if POST_COUNT <= place {
            return Err(Refusal::Posts);
        }
        let kind = take_scan(last, place, w, g, x);
        counts = counted(counts, kind);
    }
    Ok(counts)
}
