// The report over a file of scans: doubles, gaps, backward steps, and the last kept scan of each site and tag.
#![tactic(auto)]

mod kind;
mod last_kept;
mod tally;

ghost use Rattle.std.specs.Prelude.{◌≡◌};
ghost use Rattle.scans.specs.Report.{report_of, words_after};

use ion::Refusal;
use last_kept::{LastKept, WORD_COUNT};
use scans::Counts;
use tally::tally;

// The largest W, in seconds.
const MAX_WINDOW: u32 = 86_400;

// Reports on the file `s`: a scan less than `w` seconds from the last kept one of its post is a double; a kept one more than
// `g` seconds later is a gap. The first 1,024 of `words` get the last kept scan of each post, four words for each, and zeros.
#[tactic(auto, unfolding(scans::specs::Report::lent_check, scans::specs::Report::report_of, scans::specs::Report::words_after))]
pub fn report(s: &[u8], w: u32, g: u32, words: &mut [u64]) -> Result<Counts, Refusal>
    ensures value { result ≡ report_of words.old w g s.now }
    ensures buffer { words.new ≡ words_after words.old w g s.now }
{
    if words.len() < WORD_COUNT {
        return Err(Refusal::Words);
    }
    if MAX_WINDOW < w {
        return Err(Refusal::Window);
    }
    let mut last = LastKept::new();
    let counts = tally(s, w, g, &mut last)?;
    last.write_words(words);
    Ok(counts)
}
