// The last kept scan of each post, a site and a tag, in the order of the posts' first scans.
ghost use Rattle.std.specs.Prelude.{◌≡◌, ◌≤◌, ◌<◌, ◌+◌, List, [], length, get_or};
ghost use Rattle.ion.specs.Pair.Count.{count_of};
ghost use Rattle.scans.specs.Tally.{no_scan, place_of, same_post, with_last};
ghost use Rattle.scans.specs.Report.{word_count, words_over};

use ion::Timestamp;
use order::Count;
use scans::Scan;
use std::marker::Model;

// How many posts there is room for.
pub(crate) const POST_COUNT: usize = 256;

// How many words they have.
pub(crate) const WORD_COUNT: usize = 1024;

// The hint of a post: the high bits of a product, so that sites or tags alike in their low or high bits have different ones.
fn hint_of(x: Scan) -> usize
    ensures { result < 1024 }
{
    let post = (x.site as u64) << 32 | x.tag as u64;
    (post.wrapping_mul(0x9E37_79B9_7F4A_7C15) >> 54) as usize
}

fn is_same_post(x: Scan, y: Scan) -> bool
    ensures { result ≡ same_post x y }
{
    x.site == y.site && x.tag == y.tag
}

#[derive(Drop)]
pub(crate) struct LastKept {
    // Arrays and `len`, as there is no heap; no array of pairs, as a search walks the scans alone, and they are what a contract sees.
    scans: [Scan; 256],
    counts: [Count; 256],
    // Where the post of each hint may stand. A wrong one costs a search.
    hints: [u8; 1024],
    len: usize,
}

impl Model for LastKept {
    ghost use Rattle.std.specs.Prelude.{List, take};
    ghost use Rattle.scans.specs.declared.Scan.{Scan};
    ghost use Rattle.scan_report.specs.Kept.{IsKept};

    ghost Value = { List Scan };

    ghost view = { λ k. take k.len k.scans };

    ghost invariant = { λ k. IsKept k.len k.scans k.counts };
}

impl LastKept {
    pub fn new() -> Self
        ensures { result ≡ [] }
    {
        let none = Scan {
            site: 0,
            tag: 0,
            guard: 0,
            stamp: Timestamp {
                packed_fields: 0,
                attoseconds: 0,
            },
        };
        LastKept {
            scans: [none; 256],
            counts: [Count::ZERO; 256],
            hints: [0; 1024],
            len: 0,
        }
    }

    pub fn len(&self) -> usize
        ensures { result ≡ length self.now }
    {
        self.len
    }

    // The place of the post of `x`: past the last where it has none, which is where it is kept, so no Option.
    pub fn place(&self, x: Scan) -> usize
        ensures { result ≡ place_of x self.now }
    {
        let hint = self.hints[hint_of(x)] as usize;
        if hint < self.len && is_same_post(x, self.scans[hint]) {
            return hint;
        }
        self.scans[..self.len]
            .iter()
            .position(|kept| is_same_post(x, *kept))
            .unwrap_or(self.len)
    }

    // The count of the scan at a place. A place below 256 stays a number: the tally tests it once, for the refusal of a 257th post.
    pub fn count(&self, place: usize) -> Count
        requires place { place < length self.now }
        requires room { place < 256 }
        ensures { result ≡ count_of (get_or self.now place no_scan).stamp }
    {
        self.counts[place]
    }

    // Puts `x` in its place.
    #[tactic(auto, using(crate::proofs::Kept::putting))]
    pub fn keep(&mut self, place: usize, x: Scan, count: Count)
        requires place { place ≡ place_of x self.old }
        requires counted { count ≡ count_of x.stamp }
        requires room { place < 256 }
        ensures { self.new ≡ with_last x self.old }
    {
        self.scans[place] = x;
        self.counts[place] = count;
        self.hints[hint_of(x)] = (place % 256) as u8;
        if place == self.len {
            self.len += 1;
        }
    }

    // Puts the words of the scans into the first 1,024, and zeros after them.
    pub fn write_words(&self, words: &mut [u64])
        requires { word_count ≤ length words.old }
        ensures { words.new ≡ words_over words.old self.now }
    {
        // An index: of the words behind chunks of an `iter_mut` a proof knows nothing afterwards, and the zeros begin at it.
        let mut at = 0;
        for x in &self.scans[..self.len] {
            words[at..at + 4].copy_from_slice(&[
                x.site as u64,
                x.tag as u64,
                x.stamp.packed_fields,
                x.stamp.attoseconds,
            ]);
            at += 4;
        }
        words[at..WORD_COUNT].fill(0);
    }
}
