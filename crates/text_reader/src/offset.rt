// The offset at the end of a text.
ghost use Rattle.std.specs.Prelude.{◌≡◌, ◌<◌};
ghost use Rattle.ion.specs.Text.ReadText.{signed_clock, read_clock, read_offset};
ghost use Rattle.ion.specs.Value.ReadValue.{same};

use crate::digits::two_digits;
use ion::BuilderOffset;
use ion::offset::{OffsetMinutes, UNKNOWN_TEXT, ZERO_TEXT};

// Whether a text is these bytes, all of it. By arrays: a comparison of two slices is not inlined.
#[tactic(auto, using(crate::proofs::Clocks::texts))]
pub(crate) fn is_text<const N: usize>(r: &[u8], bytes: &[u8; N]) -> bool
    ensures { result ≡ same r.now bytes.now }
{
    match <[u8; N]>::try_from(r) {
        Ok(text) => text == *bytes,
        Err(_) => false,
    }
}

#[tactic(auto, unfolding(ion::specs::Text::ReadText::signed_clock))]
fn signed_clock(sign: u8, hours: u32, minutes: u32) -> Option<BuilderOffset>
    requires { (hours < 100) × (minutes < 100) }
    ensures { result ≡ signed_clock sign hours minutes }
{
    if 59 < minutes {
        return None;
    }
    let z = (hours * 60 + minutes) as i32;
    match sign {
        b'+' => Some(BuilderOffset::FromLocalFields(OffsetMinutes::new(z))),
        b'-' => Some(BuilderOffset::FromLocalFields(OffsetMinutes::new(-z))),
        _ => None,
    }
}

// A sign, hours and minutes.
#[tactic(auto, using(crate::proofs::Clocks::clocks))]
fn read_clock(r: &[u8]) -> Option<BuilderOffset>
    ensures { result ≡ read_clock r.now }
{
    let [sign, a, b, b':', c, d] = r else {
        return None;
    };
    signed_clock(*sign, two_digits(*a, *b)?, two_digits(*c, *d)?)
}

// The offset that a text is, all of it.
#[tactic(auto, unfolding(ion::specs::Text::ReadText::read_offset))]
pub(crate) fn read_offset(r: &[u8]) -> Option<BuilderOffset>
    ensures { result ≡ read_offset r.now }
{
    if is_text(r, &UNKNOWN_TEXT) {
        Some(BuilderOffset::Unknown)
    } else if is_text(r, &ZERO_TEXT) || is_text(r, b"Z") {
        Some(BuilderOffset::FromLocalFields(OffsetMinutes::new(0)))
    } else {
        read_clock(r)
    }
}
