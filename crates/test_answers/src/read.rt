// Records of reading: the answer stands before the input, which is the rest of the record.
ghost use Rattle.std.specs.Prelude.{◌≡◌};
ghost use Rattle.test_answers.specs.Agreement.{is_reading, read_agrees, padded_read_agrees, text_agrees};

use crate::built::is_built;
use crate::fields::byte_at;
use ion::{Refusal, Timestamp};

// Whether an answer is the number, the pair and how many bytes are taken.
#[tactic(auto, unfolding(crate::specs::Agreement::is_reading))]
fn is_reading(a: Result<(Timestamp, usize), Refusal>, r: &[u8]) -> bool
    ensures { result ≡ is_reading a r.now }
{
    let taken = a.map_or(0, |(_, n)| n);
    is_built(a.map(|(s, _)| s), r, 0) && taken == usize::from(byte_at(r, 17))
}

#[tactic(auto, unfolding(crate::specs::Agreement::read_agrees))]
pub fn read_agrees(r: &[u8]) -> bool
    ensures { result ≡ read_agrees r.now }
{
    match r.split_at_checked(19) {
        Some((_, input)) => is_reading(value_reader::read_value(input), r),
        None => false,
    }
}

#[tactic(auto, unfolding(crate::specs::Agreement::padded_read_agrees))]
pub fn padded_read_agrees(r: &[u8]) -> bool
    ensures { result ≡ padded_read_agrees r.now }
{
    match r.split_at_checked(19) {
        Some((_, input)) => is_reading(padded_reader::read_padded_value(input), r),
        None => false,
    }
}

#[tactic(auto, unfolding(crate::specs::Agreement::text_agrees))]
pub fn text_agrees(r: &[u8]) -> bool
    ensures { result ≡ text_agrees r.now }
{
    match r.split_at_checked(18) {
        Some((_, input)) => is_built(text_reader::read_text(input), r, 0),
        None => false,
    }
}
