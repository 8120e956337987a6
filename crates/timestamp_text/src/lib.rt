// Port of `Timestamp::format` of types/timestamp.rs: the text of a timestamp.
#![tactic(auto)]

mod offset;
mod parts;

ghost use Rattle.std.specs.Prelude.{◌≡◌, ◌+◌, ◌≤◌, length};
ghost use Rattle.ion.specs.Calls.Accepted.{Valid};
ghost use Rattle.ion.specs.Calls.Check.{check_of};
ghost use Rattle.ion.specs.Calls.Output.{Run, put_after, wrote_after};
ghost use Rattle.ion.specs.Text.Format.{fields_text, text_of};
ghost use Rattle.timestamp_text.specs.TextParts.{text_length};

use ion::{Fields, Refusal, Timestamp};
use text::text_formatter;

// How long the text is at a precision, a number as the word has it, with a number of digits.
fn text_length(precision: u32, digits: u32) -> usize
    ensures { result ≡ text_length precision digits }
{
    match precision {
        0 => 5,
        1 => 8,
        2 => 11,
        3 => 22,
        _ if digits == 0 => 25,
        _ => 26 + digits as usize,
    }
}

// Writes the text of fields from index `at` on, where there is room for it; the index after it.
#[tactic(auto, using(crate::proofs::Lengths::texts))]
pub fn text_into(buf: &mut [u8], at: usize, f: Fields, attoseconds: u64) -> usize
    requires { (at + length (fields_text f attoseconds) ≤ length buf.old) × Valid f attoseconds }
    ensures { Run buf.old at (fields_text f attoseconds) buf.new result }
{
    match f.precision {
        0 => {
            let year = text_formatter::put_four(buf, at, f.year);
            parts::put_byte(buf, year, b'T')
        }
        1 => {
            let month = parts::format_year_and_month(buf, at, f);
            parts::put_byte(buf, month, b'T')
        }
        2 => {
            let day = parts::format_date(buf, at, f);
            parts::put_byte(buf, day, b'T')
        }
        3 => {
            let minute = parts::format_date_hour_and_minute(buf, at, f);
            offset::format_offset(buf, minute, f.offset)
        }
        4.. => {
            let fraction = parts::format_to_fraction(buf, at, f, attoseconds);
            offset::format_offset(buf, fraction, f.offset)
        }
    }
}

// Writes the text of a timestamp from index `at` on.
#[tactic(auto, using(crate::proofs::Lengths::whole), unfolding(ion::specs::Calls::Output::put_after, ion::specs::Calls::Output::wrote_after, ion::specs::Calls::Output::room_for, ion::specs::Calls::Output::put, ion::specs::Text::Format::text_of))]
pub fn format(buf: &mut [u8], at: usize, s: Timestamp) -> Result<usize, Refusal>
    ensures value { result ≡ wrote_after (check_of s) buf.old at (text_of s) }
    ensures buffer { buf.new ≡ put_after (check_of s) buf.old at (text_of s) }
{
    timestamp::check(s)?;
    let f = packed::unpack(s.packed_fields);
    let n = output::room_for(buf.len(), at, text_length(f.precision, f.digits))?;
    text_into(buf, at, f, s.attoseconds);
    Ok(n)
}
