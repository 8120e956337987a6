// The offset at the end of a text: six bytes.
ghost use Rattle.std.specs.Prelude.{◌∷◌, ◌+◌, ◌≤◌, ◌<◌, nat_abs, length};
ghost use Rattle.ion.specs.Calls.Output.{Run};
ghost use Rattle.ion.specs.Pair.Offset.{offset_of};
ghost use Rattle.ion.specs.Text.Format.{clock_text, minutes_text, offset_text};

use crate::parts;
use ion::offset;
use ion::offset::{OffsetMinutes, RawOffset};
use text::text_formatter;

// A sign, hours and minutes.
#[tactic(auto, using(crate::proofs::Lengths::lengths))]
fn put_clock(buf: &mut [u8], at: usize, sign: u8, minutes: u32) -> usize
    requires { (at + 6 ≤ length buf.old) × (minutes < 1440) }
    ensures { Run buf.old at (sign ∷ clock_text minutes) buf.new result }
{
    let hours = parts::put_byte(buf, at, sign);
    let next = text_formatter::put_two(buf, hours, minutes / 60);
    parts::put_marked(buf, next, b':', minutes % 60)
}

// A known offset.
#[tactic(auto, using(crate::proofs::Offsets::signs))]
fn put_minutes(buf: &mut [u8], at: usize, m: OffsetMinutes) -> usize
    requires { (at + 6 ≤ length buf.old) × (nat_abs m.0 < 1440) }
    ensures { Run buf.old at (minutes_text m.0) buf.new result }
{
    let z = m.minutes();
    if z < 0 {
        return put_clock(buf, at, b'-', (-z) as u32);
    }
    if 0 < z {
        return put_clock(buf, at, b'+', z as u32);
    }
    output::put(buf, at, offset::ZERO_TEXT.as_slice())
}

#[tactic(auto, using(crate::proofs::Lengths::offsets), unfolding(ion::specs::Text::Format::offset_text))]
pub(crate) fn format_offset(buf: &mut [u8], at: usize, raw: RawOffset) -> usize
    requires { (at + 6 ≤ length buf.old) × (raw.0 < 2880) }
    ensures { Run buf.old at (offset_text (offset_of raw)) buf.new result }
{
    match offset::offset_of(raw) {
        None => output::put(buf, at, offset::UNKNOWN_TEXT.as_slice()),
        Some(m) => put_minutes(buf, at, m),
    }
}
