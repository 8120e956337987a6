// The report over a file.
ghost use Rattle.std.specs.Prelude.{◌≡◌};
ghost use Rattle.scans.specs.Report.{report_of, words_after};
ghost use Rattle.test_scan_exports.specs.Answers.{CountsAre};

use crate::answers::store_counts;

#[unsafe(no_mangle)]
pub extern "C" fn file_report(
    input: &[u8],
    w: u32,
    g: u32,
    words: &mut [u64],
    counts: &mut [u64; 5],
) -> u32
    ensures report { CountsAre (report_of words.old w g input.now) result counts.new }
    ensures buffer { words.new ≡ words_after words.old w g input.now }
{
    store_counts(scan_report::report(input, w, g, words), counts)
}
