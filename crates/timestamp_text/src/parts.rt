// Parts of a text, each with the index after it: a byte, a mark and two digits, a fraction; then all up to a field. What a field
// has to be stays a fact in contracts: a type of such fields would be made here alone, of a word's.
ghost use Rattle.std.specs.Prelude.{[], ◌∷◌, ◌+◌, ◌^◌, ◌≤◌, ◌<◌, length};
ghost use Rattle.ion.specs.Calls.Accepted.{Valid};
ghost use Rattle.ion.specs.Calls.Output.{Run};
ghost use Rattle.ion.specs.Pair.Word.{InRange};
ghost use Rattle.ion.specs.Text.Format.{marked, fraction_text};
ghost use Rattle.timestamp_text.specs.TextParts.{fraction_length, to_month, to_day, to_minute, to_fraction};

use ion::Fields;
use text::text_formatter;

pub(crate) fn put_byte(buf: &mut [u8], at: usize, byte: u8) -> usize
    requires { at + 1 ≤ length buf.old }
    ensures { Run buf.old at (byte ∷ []) buf.new result }
{
    buf[at] = byte;
    at + 1
}

pub(crate) fn put_marked(buf: &mut [u8], at: usize, mark: u8, value: u32) -> usize
    requires { (at + 3 ≤ length buf.old) × (value < 100) }
    ensures { Run buf.old at (marked mark value) buf.new result }
{
    let next = put_byte(buf, at, mark);
    text_formatter::put_two(buf, next, value)
}

// A point and the digits of a fraction, or nothing.
#[tactic(auto, using(crate::proofs::Lengths::fractions), unfolding(ion::specs::Text::Format::fraction_text))]
fn format_fractional_seconds(buf: &mut [u8], at: usize, digits: u32, attoseconds: u64) -> usize
    requires { (at + fraction_length digits ≤ length buf.old) × (digits ≤ 18) × (attoseconds < 10 ^ 18) }
    ensures { Run buf.old at (fraction_text digits attoseconds) buf.new result }
{
    if digits == 0 {
        return at;
    }
    let next = put_byte(buf, at, b'.');
    let n = digits as usize;
    text_formatter::put_digits(
        buf,
        next + n,
        attoseconds / fraction::scale(digits as u64),
        n,
    );
    next + n
}

// ---- each writes what the one above it does, and then more

#[tactic(auto, using(crate::proofs::Lengths::lengths))]
pub(crate) fn format_year_and_month(buf: &mut [u8], at: usize, f: Fields) -> usize
    requires { (at + length (to_month f) ≤ length buf.old) × (f.year ≤ 9999) × InRange f }
    ensures { Run buf.old at (to_month f) buf.new result }
{
    let next = text_formatter::put_four(buf, at, f.year);
    put_marked(buf, next, b'-', f.month)
}

#[tactic(auto, using(crate::proofs::Lengths::lengths))]
pub(crate) fn format_date(buf: &mut [u8], at: usize, f: Fields) -> usize
    requires { (at + length (to_day f) ≤ length buf.old) × (f.year ≤ 9999) × InRange f }
    ensures { Run buf.old at (to_day f) buf.new result }
{
    let next = format_year_and_month(buf, at, f);
    put_marked(buf, next, b'-', f.day)
}

#[tactic(auto, using(crate::proofs::Lengths::lengths))]
pub(crate) fn format_date_hour_and_minute(buf: &mut [u8], at: usize, f: Fields) -> usize
    requires { (at + length (to_minute f) ≤ length buf.old) × (f.year ≤ 9999) × InRange f }
    ensures { Run buf.old at (to_minute f) buf.new result }
{
    let next = format_date(buf, at, f);
    let minute = put_marked(buf, next, b'T', f.hour);
    put_marked(buf, minute, b':', f.minute)
}

#[tactic(auto, using(crate::proofs::Lengths::seconds))]
pub(crate) fn format_to_fraction(buf: &mut [u8], at: usize, f: Fields, attoseconds: u64) -> usize
    requires { (at + length (to_fraction f attoseconds) ≤ length buf.old) × Valid f attoseconds }
    ensures { Run buf.old at (to_fraction f attoseconds) buf.new result }
{
    let minute = format_date_hour_and_minute(buf, at, f);
    let second = put_marked(buf, minute, b':', f.second);
    format_fractional_seconds(buf, second, f.digits, attoseconds)
}
