// The form of a text, and the timestamp that the builder makes of it.
ghost use Rattle.std.specs.Prelude.{◌≡◌};
ghost use Rattle.ion.specs.Text.ReadText.{read_text, read_text_of};

use crate::digits::{read_marked, read_year};
use crate::ending::{end_date, end_offset, end_second, end_t};
use ion::{BuilderFields, BuilderOffset, Refusal, Timestamp, TimestampPrecision};

// The fields of the text that `s` is, all of it: each field, and the form that ends before it.
#[tactic(auto, unfolding(ion::specs::Text::ReadText::read_text))]
fn read_form(s: &[u8]) -> Option<BuilderFields>
    ensures { result ≡ read_text s.now }
{
    let year = read_year(s)?;
    let at_year = BuilderFields {
        precision: TimestampPrecision::Year,
        offset: BuilderOffset::Unknown,
        year,
        month: 1,
        day: 1,
        hour: 0,
        minute: 0,
        second: 0,
        attoseconds: 0,
        digits: 0,
    };
    let Some(month) = read_marked(s, 4, b'-') else {
        return end_t(at_year, &s[4..]);
    };
    let at_month = BuilderFields {
        precision: TimestampPrecision::Month,
        month,
        ..at_year
    };
    let Some(day) = read_marked(s, 7, b'-') else {
        return end_t(at_month, &s[7..]);
    };
    let at_day = BuilderFields {
        precision: TimestampPrecision::Day,
        day,
        ..at_month
    };
    let Some(hour) = read_marked(s, 10, b'T') else {
        return end_date(at_day, &s[10..]);
    };
    let minute = read_marked(s, 13, b':')?;
    let at_minute = BuilderFields {
        precision: TimestampPrecision::HourAndMinute,
        hour,
        minute,
        ..at_day
    };
    let Some(second) = read_marked(s, 16, b':') else {
        return end_offset(at_minute, &s[16..]);
    };
    let at_second = BuilderFields {
        precision: TimestampPrecision::Second,
        second,
        ..at_minute
    };
    end_second(at_second, &s[19..])
}

// Reads the timestamp whose text `s` is, all of it.
#[tactic(auto, using(crate::proofs::Forms::staged), unfolding(ion::specs::Text::ReadText::read_text_of))]
pub fn read_text(s: &[u8]) -> Result<Timestamp, Refusal>
    ensures { result ≡ read_text_of s.now }
{
    let f = read_form(s).ok_or(Refusal::Form)?;
    builder::build_fields(f)
}
