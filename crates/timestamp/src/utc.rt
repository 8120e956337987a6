// The UTC form.
ghost use Rattle.std.specs.Prelude.{◌≡◌, ◌≤◌};
ghost use Rattle.ion.specs.Pair.Offset.{WithinDay, offset_of};
ghost use Rattle.ion.specs.Calendar.Shift.{IsDateTime, shifted};
ghost use Rattle.ion.specs.Calls.Accepted.{time_in};
ghost use Rattle.ion.specs.Calls.Utc.{with_time, utc_fields, utc_of};

use crate::checking::check;
use ion::offset::{OffsetMinutes, RawOffset, offset_of, raw_of};
use ion::{DateTime, Fields, Refusal, Timestamp};

// ---- for the crates above that hold fields which are known to be valid

// The fields with their date and time moved by minutes, and with another offset.
pub fn shifted_fields(f: Fields, m: OffsetMinutes, raw: RawOffset) -> Fields
    requires { IsDateTime (time_in f) × (f.year ≤ 10000) × WithinDay (Some m) }
    ensures { result ≡ with_time f (shifted (time_in f) m.0) raw }
{
    let DateTime {
        year,
        month,
        day,
        hour,
        minute,
    } = calendar::add_offset_to_utc(f.time(), m);
    Fields {
        year,
        month,
        day,
        hour,
        minute,
        offset: raw,
        ..f
    }
}

// The fields in UTC: the offset is subtracted and marked unknown. An unknown offset changes nothing.
#[tactic(auto, unfolding(ion::specs::Calls::Utc::utc_fields))]
pub fn utc_fields(f: Fields) -> Fields
    requires { IsDateTime (time_in f) × (f.year ≤ 9999) × WithinDay (offset_of f.offset) }
    ensures { result ≡ utc_fields f }
{
    match offset_of(f.offset) {
        None => f,
        Some(m) => shifted_fields(f, m.negated(), raw_of(None)),
    }
}

// The same moment with an unknown offset. Its year may be 0 or 10000, and then the packed check refuses it.
#[tactic(auto, using(crate::proofs::UtcForm::utc_form), unfolding(ion::specs::Calls::Utc::utc_of))]
pub fn to_utc(s: Timestamp) -> Result<Timestamp, Refusal>
    ensures { result ≡ utc_of s }
{
    check(s)?;
    let f = utc_fields(packed::unpack(s.packed_fields));
    Ok(Timestamp {
        packed_fields: packed::pack(f),
        ..s
    })
}
