// Answers handed out: the number is returned, the rest is stored through references.
ghost use Rattle.test_scan_exports.specs.Answers.{ScanIs, CountsAre};

use ion::Refusal;
use ion::refusal::number_in;
use scans::{Counts, Scan};
use test_results::pair;

pub(crate) fn store_scan(
    x: Result<(Scan, usize), Refusal>,
    site: &mut u32,
    tag: &mut u32,
    guard: &mut u32,
    word: &mut u64,
    attoseconds: &mut u64,
    taken: &mut usize,
) -> u32
    ensures { ScanIs x result site.new tag.new guard.new word.new attoseconds.new taken.new }
{
    let no_scan = Scan {
        site: 0,
        tag: 0,
        guard: 0,
        stamp: pair(0, 0),
    };
    let (scan, n) = x.unwrap_or((no_scan, 0));
    *site = scan.site;
    *tag = scan.tag;
    *guard = scan.guard;
    *word = scan.stamp.packed_fields;
    *attoseconds = scan.stamp.attoseconds;
    *taken = n;
    number_in(&x)
}

pub(crate) fn store_counts(x: Result<Counts, Refusal>, counts: &mut [u64; 5]) -> u32
    ensures { CountsAre x result counts.new }
{
    *counts = match x {
        Ok(c) => [c.scans, c.doubles, c.kept, c.gaps, c.backward],
        Err(_) => [0; 5],
    };
    number_in(&x)
}
