// A file: scans one after another, to the end of the bytes.
ghost use Rattle.std.specs.Prelude.{◌≡◌, length};
ghost use Rattle.std.specs.Iterator.{at_most};
ghost use Rattle.scans.specs.File.{scans_in, contents_of, check_file_of};
ghost use Rattle.scan_binary.specs.Scans.{GivesScan};

use crate::layout::{START, layout_of};
use crate::reader::read_scan;
use ion::Refusal;
use scans::{Layout, Scan};

// The scans of a file, up to its end or its damage.
#[derive(Drop)]
pub struct Scans<'a> {
    layout: Layout,
    // The bytes after those that were read.
    left: &'a [u8],
}

impl<'a> Scans<'a> {
    #[tactic(auto, using(scan_laws::proofs::Layouts::layouts))]
    pub fn new(file: &'a [u8]) -> Self
        ensures { scans_in result.layout result.left.now ≡ contents_of file.now }
    {
        match layout_of(file) {
            Layout::Old => Scans {
                layout: Layout::Old,
                left: file,
            },
            Layout::New => Scans {
                layout: Layout::New,
                left: &file[START.len()..],
            },
        }
    }
}

impl Iterator for Scans<'_> {
    type Item = Result<Scan, Refusal>;

    ghost remaining = { λ s. at_most (length s.left.now) };

    ghost next_gives = { λ s x t. GivesScan (scans_in s.layout s.left.now) x (scans_in t.layout t.left.now) };

    #[tactic(auto, using(scan_laws::proofs::Passing::steps))]
    #[inline(always)]
    fn next(&mut self) -> Option<Result<Scan, Refusal>> {
        if self.left.is_empty() {
            return None;
        }
        match read_scan(self.left, self.layout) {
            Ok((scan, taken)) => {
                self.left = &self.left[taken..];
                Some(Ok(scan))
            }
            Err(refusal) => {
                self.left = &[];
                Some(Err(refusal))
            }
        }
    }
}

// Reads a file to its end, or to its damage: how many scans it holds.
pub fn check_file(s: &[u8]) -> Result<usize, Refusal>
    ensures { result ≡ check_file_of s.now }
{
    let mut scans = 0;
    for scan in Scans::new(s) {
        scan?;
        scans += 1;
    }
    Ok(scans)
}
