// Records of a report: what is asked and lent, the answer with the words of the first two posts, and then the file.
use ion::refusal::number_in;
use scans::Counts;
use test_answers::{byte_at, half_at, word_at};

// What every lent word is before the call.
const BEFORE: u64 = 7;

// How many words are lent at most, and how many the last kept scans have.
const LENT: usize = 1040;

const WORDS: usize = 1024;

// What a refusal has where there must be counts.
const NO_COUNTS: Counts = Counts {
    scans: 0,
    doubles: 0,
    kept: 0,
    gaps: 0,
    backward: 0,
};

// What the word at index `i` must be after a report.
fn word_due(r: &[u8], i: usize) -> u64 {
    if i < 8 {
        word_at(r, 16 + i * 8)
    } else if i < WORDS {
        0
    } else {
        BEFORE
    }
}

// Whether the lent words are so: as they were beside a refusal.
fn words_agree(words: &[u64], r: &[u8]) -> bool {
    if byte_at(r, 10) != 0 {
        return words.iter().all(|word| *word == BEFORE);
    }
    words
        .iter()
        .enumerate()
        .all(|(i, word)| *word == word_due(r, i))
}

fn counts_agree(c: Counts, r: &[u8]) -> bool {
    let counts = [c.scans, c.doubles, c.kept, c.gaps, c.backward];
    counts
        .iter()
        .zip(11..16)
        .all(|(count, at)| *count == u64::from(byte_at(r, at)))
}

// Whether the report is the recorded one, and leaves the lent words so.
pub(crate) fn report_agrees(r: &[u8]) -> bool {
    let lent = usize::from(u16::from_be_bytes([byte_at(r, 8), byte_at(r, 9)]));
    let Some(file) = r.get(81..) else {
        return false;
    };
    let mut room = [BEFORE; LENT];
    let Some(words) = room.get_mut(..lent) else {
        return false;
    };
    let a = scan_report::report(file, half_at(r, 0), half_at(r, 4), words);
    number_in(&a) == u32::from(byte_at(r, 10))
        && counts_agree(a.unwrap_or(NO_COUNTS), r)
        && words_agree(words, r)
}
