// Whether a packed pair is one that the builder gives, without building: its fields are tested against what
// holds of those.
ghost use Rattle.std.specs.Prelude.{◌≡◌, true, ◌&&◌, ◌||◌, ◌+◌, ◌%◌, ◌^◌, ◌<◌, eqb, leb, ltb};
ghost use Rattle.std.specs.Int.Bits.{bit_and};
ghost use Rattle.ion.specs.Pair.Word.{fields_of};
ghost use Rattle.ion.specs.Pair.Fraction.{scale};
ghost use Rattle.std.specs.Result.{is_ok};
ghost use Rattle.ion.specs.Calls.Check.{check_of};
ghost use Rattle.ion.specs.Calls.Accepted.{Valid};

use ion::{Fields, MAX_ATTOSECONDS, Timestamp};
use packed::{
    HOUR_MASK, HOUR_SHIFT, MINUTE_MASK, MINUTE_SHIFT, OFFSET_MASK, OFFSET_SHIFT, PRECISION_MASK,
    PRECISION_SHIFT, RESERVED_BITS, SECOND_MASK, SECOND_SHIFT, SUBSECOND_PRECISION_MASK,
    SUBSECOND_PRECISION_SHIFT, YEAR_SHIFT,
};

// Hour, second and digits: another field stands above each.
const MASKS: u64 = (HOUR_MASK << HOUR_SHIFT)
    | (SECOND_MASK << SECOND_SHIFT)
    | (SUBSECOND_PRECISION_MASK << SUBSECOND_PRECISION_SHIFT);

// What the largest value of each lacks of its width, so that one beyond it reaches the bit above.
const SPARES: u64 = ((HOUR_MASK - 23) << HOUR_SHIFT)
    | ((SECOND_MASK - 59) << SECOND_SHIFT)
    | ((SUBSECOND_PRECISION_MASK - 18) << SUBSECOND_PRECISION_SHIFT);

// These bits.
const BITS_ABOVE: u64 = ((HOUR_MASK + 1) << HOUR_SHIFT)
    | ((SECOND_MASK + 1) << SECOND_SHIFT)
    | ((SUBSECOND_PRECISION_MASK + 1) << SUBSECOND_PRECISION_SHIFT);

// The same of minute, precision and offset.
const OTHER_MASKS: u64 = (MINUTE_MASK << MINUTE_SHIFT)
    | (PRECISION_MASK << PRECISION_SHIFT)
    | (OFFSET_MASK << OFFSET_SHIFT);

const OTHER_SPARES: u64 = ((MINUTE_MASK - 59) << MINUTE_SHIFT)
    | ((PRECISION_MASK - 4) << PRECISION_SHIFT)
    | ((OFFSET_MASK - 2879) << OFFSET_SHIFT);

const OTHER_BITS_ABOVE: u64 = ((MINUTE_MASK + 1) << MINUTE_SHIFT)
    | ((PRECISION_MASK + 1) << PRECISION_SHIFT)
    | ((OFFSET_MASK + 1) << OFFSET_SHIFT);

const RESERVED: u64 = 1 << RESERVED_BITS;

// Whether no field of the masks reaches the bit above it.
fn none_beyond(w: u64, masks: u64, spares: u64, above: u64) -> bool
    requires { masks + spares < 2 ^ 64 }
    ensures { result ≡ eqb (bit_and (bit_and w masks + spares) above) 0 }
{
    ((w & masks) + spares) & above == 0
}

// Whether each field but the month and the day is in its bounds; the fields of a mask are tested all at once.
#[tactic(auto, using(crate::proofs::WordBounds::word_bounds))]
fn in_bounds(w: u64) -> bool
    ensures { result ≡ (leb 1 (fields_of w).year && leb (fields_of w).year 9999
        && leb (fields_of w).hour 23 && leb (fields_of w).minute 59 && leb (fields_of w).second 59
        && leb (fields_of w).precision 4 && leb (fields_of w).digits 18 && ltb (fields_of w).offset.0 2880) }
{
    (1 << YEAR_SHIFT <= w)
        & (w < 10_000 << YEAR_SHIFT)
        & none_beyond(w, MASKS, SPARES, BITS_ABOVE)
        & none_beyond(w, OTHER_MASKS, OTHER_SPARES, OTHER_BITS_ABOVE)
}

// Whether each field that the precision, a number, does not have has its first value. Tests here are joined by `&`, with no branch.
fn has_first_values(f: Fields) -> bool
    ensures { result ≡ ((leb 1 f.precision || eqb f.month 1)
        && (leb 2 f.precision || eqb f.day 1)
        && (leb 3 f.precision || (eqb f.hour 0 && eqb f.minute 0 && eqb f.offset.0 0))
        && (leb 4 f.precision || (eqb f.second 0 && eqb f.digits 0))) }
{
    if 4 <= f.precision {
        return true;
    }
    ((1 <= f.precision) | (f.month == 1))
        & ((2 <= f.precision) | (f.day == 1))
        & ((3 <= f.precision) | ((f.hour == 0) & (f.minute == 0) & (f.offset.bits() == 0)))
        & ((f.second == 0) & (f.digits == 0))
}

// Whether a fraction has no more than its digits. Only one that has some and not all 18 is divided.
#[tactic(auto, using(crate::proofs::FieldTests::scales))]
fn is_multiple(attoseconds: u64, digits: u32) -> bool
    requires { attoseconds < 10 ^ 18 }
    ensures { result ≡ eqb (attoseconds % scale digits) 0 }
{
    if attoseconds == 0 {
        return true;
    }
    if digits == 0 {
        return false;
    }
    if 18 <= digits {
        return true;
    }
    attoseconds % fraction::scale(digits as u64) == 0
}

fn is_valid(w: u64, attoseconds: u64) -> bool
    ensures { (result ≡ true → Valid (fields_of w) attoseconds) × (Valid (fields_of w) attoseconds → result ≡ true) }
{
    if !in_bounds(w) {
        return false;
    }
    let f = packed::unpack(w);
    if !has_first_values(f) {
        return false;
    }
    if MAX_ATTOSECONDS <= attoseconds {
        return false;
    }
    if !calendar::is_date(f.time().date()) {
        return false;
    }
    is_multiple(attoseconds, f.digits)
}

// Whether the packed check answers Ok.
#[tactic(auto, using(crate::proofs::FieldTests::decided))]
pub fn is_accepted(s: Timestamp) -> bool
    ensures { result ≡ is_ok (check_of s) }
{
    if s.packed_fields % RESERVED != 0 {
        return false;
    }
    is_valid(s.packed_fields, s.attoseconds)
}
