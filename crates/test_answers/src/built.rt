// Records of building, of the packed check and of the UTC form: a number and a pair. A record of building starts with a field set
// of 48 bytes. Indices below 300 keep sums in range. Each call that a record is compared with is named by a line of its own.
ghost use Rattle.std.specs.Prelude.{◌≡◌, ◌&&◌, ◌+◌, ◌<◌, eqb, get_or};
ghost use Rattle.ion.specs.Pair.Pair.{same_pair};
ghost use Rattle.test_answers.specs.Fields.{recorded_pair, field_set_at, is_field_set};
ghost use Rattle.test_answers.specs.Agreement.{is_built, is_built_from, build_agrees, check_agrees, utc_agrees};

use crate::fields::{byte_at, half_at, pair_at, word_at};
use ion::refusal::number_in;
use ion::{Refusal, Timestamp};
use test_field_sets::{FieldSet, UNKNOWN_CODE};

// What a refusal has where there must be a pair.
pub const NO_STAMP: Timestamp = Timestamp {
    packed_fields: 0,
    attoseconds: 0,
};

// Whether the number and the pair from index `at` on are these.
fn is_pair(number: u32, s: Timestamp, r: &[u8], at: usize) -> bool
    requires { at < 300 }
    ensures { result ≡ (eqb number (get_or r.now at 0) && same_pair s (recorded_pair r.now (at + 1))) }
{
    let t = pair_at(r, at + 1);
    number == u32::from(byte_at(r, at))
        && (s.packed_fields, s.attoseconds) == (t.packed_fields, t.attoseconds)
}

// Whether an answer is the number and the pair from index `at` on.
#[tactic(auto, unfolding(crate::specs::Agreement::is_built))]
pub(crate) fn is_built(a: Result<Timestamp, Refusal>, r: &[u8], at: usize) -> bool
    requires { at < 300 }
    ensures { result ≡ is_built a r.now at }
{
    is_pair(number_in(&a), a.unwrap_or(NO_STAMP), r, at)
}

// Whether the second byte is a sum of 1, 2 and 4, and a fraction that is no decimal has numbers of 32 bits.
#[tactic(auto, unfolding(crate::specs::Fields::is_field_set))]
fn is_field_set(r: &[u8]) -> bool
    ensures { result ≡ is_field_set r.now }
{
    byte_at(r, 1) < 8 && (5 <= byte_at(r, 26) || half_at(r, 27) == 0 && half_at(r, 35) == 0)
}

#[tactic(auto, unfolding(crate::specs::Fields::field_set_at))]
fn field_set_at(r: &[u8]) -> FieldSet
    ensures { result ≡ field_set_at r.now }
{
    let how = byte_at(r, 1);
    FieldSet {
        stage: u32::from(byte_at(r, 0)),
        month0: how % 2 == 1,
        day0: how / 2 % 2 == 1,
        both: how / 4 % 2 == 1,
        year: half_at(r, 2),
        month: half_at(r, 6),
        day: half_at(r, 10),
        hour: half_at(r, 14),
        minute: half_at(r, 18),
        second: half_at(r, 22),
        fraction: u32::from(byte_at(r, 26)),
        amount: half_at(r, 31),
        digits: half_at(r, 39),
        coefficient: word_at(r, 27),
        exponent: word_at(r, 35).cast_signed(),
        offset: u32::from(byte_at(r, 43)),
        minutes: half_at(r, 44).cast_signed(),
    }
}

// What was built; where a code stands for nothing, its number and the pair (0, 0).
fn is_built_from(a: Option<Result<Timestamp, Refusal>>, r: &[u8], at: usize) -> bool
    requires { at < 300 }
    ensures { result ≡ is_built_from a r.now at }
{
    match a {
        Some(built) => is_built(built, r, at),
        None => is_pair(UNKNOWN_CODE, NO_STAMP, r, at),
    }
}

#[tactic(auto, unfolding(crate::specs::Agreement::build_agrees))]
pub fn build_agrees(r: &[u8]) -> bool
    ensures { result ≡ build_agrees r.now }
{
    is_field_set(r) && is_built_from(test_field_sets::build_from(field_set_at(r)), r, 48)
}

#[tactic(auto, unfolding(crate::specs::Agreement::check_agrees))]
pub fn check_agrees(r: &[u8]) -> bool
    ensures { result ≡ check_agrees r.now }
{
    is_built(timestamp::check(pair_at(r, 0)), r, 16)
}

#[tactic(auto, unfolding(crate::specs::Agreement::utc_agrees))]
pub fn utc_agrees(r: &[u8]) -> bool
    ensures { result ≡ utc_agrees r.now }
{
    is_built(timestamp::to_utc(pair_at(r, 0)), r, 16)
}
