// The packed word: its fields assembled and read out by shifts and masks. Its precision stays a number, as a word that is not
// accepted may have 5 to 7; and what is in range or local a fact in contracts, as one type holds the fields of any word.
#![tactic(auto)]

ghost use Rattle.std.specs.Prelude.{◌≡◌, ◌<◌};
ghost use Rattle.ion.specs.Pair.Layout.{field_at};
ghost use Rattle.ion.specs.Pair.Offset.{raw_offset};
ghost use Rattle.ion.specs.Pair.Word.{InRange, word_of, fields_of};

use ion::Fields;
use ion::offset::RawOffset;

// The fields' widths in bits.
pub const YEAR_BITS: u64 = 14;

pub const MONTH_BITS: u64 = 4;

pub const DAY_BITS: u64 = 5;

pub const HOUR_BITS: u64 = 5;

pub const MINUTE_BITS: u64 = 6;

pub const SECOND_BITS: u64 = 6;

pub const PRECISION_BITS: u64 = 3;

pub const SUBSECOND_PRECISION_BITS: u64 = 5;

pub const OFFSET_BITS: u64 = 12;

pub const RESERVED_BITS: u64 = 4;

// The largest number of so many bits.
pub const HOUR_MASK: u64 = (1 << HOUR_BITS) - 1;

pub const MINUTE_MASK: u64 = (1 << MINUTE_BITS) - 1;

pub const SECOND_MASK: u64 = (1 << SECOND_BITS) - 1;

pub const PRECISION_MASK: u64 = (1 << PRECISION_BITS) - 1;

pub const SUBSECOND_PRECISION_MASK: u64 = (1 << SUBSECOND_PRECISION_BITS) - 1;

pub const OFFSET_MASK: u64 = (1 << OFFSET_BITS) - 1;

// How many bits stand below each.
pub const OFFSET_SHIFT: u64 = RESERVED_BITS;

pub const SUBSECOND_PRECISION_SHIFT: u64 = OFFSET_SHIFT + OFFSET_BITS;

pub const PRECISION_SHIFT: u64 = SUBSECOND_PRECISION_SHIFT + SUBSECOND_PRECISION_BITS;

pub const SECOND_SHIFT: u64 = PRECISION_SHIFT + PRECISION_BITS;

pub const MINUTE_SHIFT: u64 = SECOND_SHIFT + SECOND_BITS;

pub const HOUR_SHIFT: u64 = MINUTE_SHIFT + MINUTE_BITS;

pub const DAY_SHIFT: u64 = HOUR_SHIFT + HOUR_BITS;

pub const MONTH_SHIFT: u64 = DAY_SHIFT + DAY_BITS;

pub const YEAR_SHIFT: u64 = MONTH_SHIFT + MONTH_BITS;

pub fn pack(f: Fields) -> u64
    requires { InRange f }
    ensures { result ≡ word_of f }
{
    ((f.year as u64) << YEAR_SHIFT)
        | ((f.month as u64) << MONTH_SHIFT)
        | ((f.day as u64) << DAY_SHIFT)
        | ((f.hour as u64) << HOUR_SHIFT)
        | ((f.minute as u64) << MINUTE_SHIFT)
        | ((f.second as u64) << SECOND_SHIFT)
        | ((f.precision as u64) << PRECISION_SHIFT)
        | ((f.digits as u64) << SUBSECOND_PRECISION_SHIFT)
        | ((f.offset.bits() as u64) << OFFSET_SHIFT)
}

// The field of `width` bits that has `shift` bits below it.
fn field(w: u64, shift: u64, width: u64) -> u64
    requires { (shift < 64) × (width < 64) }
    ensures { result ≡ field_at shift width w }
{
    (w >> shift) & ((1 << width) - 1)
}

pub fn year(w: u64) -> u32
    ensures { result ≡ field_at 50 14 w }
{
    field(w, YEAR_SHIFT, YEAR_BITS) as u32
}

pub fn month(w: u64) -> u32
    ensures { result ≡ field_at 46 4 w }
{
    field(w, MONTH_SHIFT, MONTH_BITS) as u32
}

pub fn day(w: u64) -> u32
    ensures { result ≡ field_at 41 5 w }
{
    field(w, DAY_SHIFT, DAY_BITS) as u32
}

pub fn hour(w: u64) -> u32
    ensures { result ≡ field_at 36 5 w }
{
    field(w, HOUR_SHIFT, HOUR_BITS) as u32
}

pub fn minute(w: u64) -> u32
    ensures { result ≡ field_at 30 6 w }
{
    field(w, MINUTE_SHIFT, MINUTE_BITS) as u32
}

pub fn second(w: u64) -> u32
    ensures { result ≡ field_at 24 6 w }
{
    field(w, SECOND_SHIFT, SECOND_BITS) as u32
}

pub fn precision(w: u64) -> u32
    ensures { result ≡ field_at 21 3 w }
{
    field(w, PRECISION_SHIFT, PRECISION_BITS) as u32
}

pub fn digits(w: u64) -> u32
    ensures { result ≡ field_at 16 5 w }
{
    field(w, SUBSECOND_PRECISION_SHIFT, SUBSECOND_PRECISION_BITS) as u32
}

pub fn raw_offset(w: u64) -> RawOffset
    ensures { result ≡ raw_offset (field_at 4 12 w) }
{
    RawOffset::new(field(w, OFFSET_SHIFT, OFFSET_BITS) as u16)
}

#[tactic(auto, unfolding(ion::specs::Pair::Word::fields_of))]
pub fn unpack(w: u64) -> Fields
    ensures { result ≡ fields_of w }
{
    Fields {
        year: year(w),
        month: month(w),
        day: day(w),
        hour: hour(w),
        minute: minute(w),
        second: second(w),
        precision: precision(w),
        digits: digits(w),
        offset: raw_offset(w),
    }
}
