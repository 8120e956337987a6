// Staged field sets in numbers, as tests and recorded answers have them, given to the builder stage by stage.
#![tactic(auto)]

mod stages;

ghost use Rattle.std.specs.Prelude.{◌≡◌};
ghost use Rattle.test_field_sets.specs.FieldSets.{is_coded, built_from};

use ion::{Refusal, Timestamp};
use stages::build_staged;

// The number of a code that stands for nothing: of tests alone, and above all of the table's. A number, as C and the files have it.
pub const UNKNOWN_CODE: u32 = 101;

// A field set in numbers: what each means is said in specs/FieldSets.antt.
#[derive(Clone, Copy)]
pub struct FieldSet {
    pub stage: u32,
    pub month0: bool,
    pub day0: bool,
    pub both: bool,
    pub year: u32,
    pub month: u32,
    pub day: u32,
    pub hour: u32,
    pub minute: u32,
    pub second: u32,
    pub fraction: u32,
    pub amount: u32,
    pub digits: u32,
    pub coefficient: u64,
    pub exponent: i64,
    pub offset: u32,
    pub minutes: i32,
}

// Whether each code stands for something.
fn is_coded(x: FieldSet) -> bool
    ensures { result ≡ is_coded x }
{
    (x.stage <= 5) & (x.fraction <= 6) & (x.offset <= 2)
}

// What the builder answers to a field set; none where a code stands for nothing.
#[tactic(auto, unfolding(crate::specs::FieldSets::built_from))]
pub fn build_from(x: FieldSet) -> Option<Result<Timestamp, Refusal>>
    ensures { result ≡ built_from x }
{
    is_coded(x).then(|| build_staged(x))
}
