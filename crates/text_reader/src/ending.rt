// How a text ends after its fields: in a T or at once, or in an offset, before which a second may have a fraction. The ends are
// inlined: else the fields would be copied from one to the next.
ghost use Rattle.std.specs.Prelude.{◌≡◌};
ghost use Rattle.ion.specs.Text.ReadText.{end_offset, end_t, end_date, end_digits, end_second};

use crate::digits::read_run;
use crate::offset::{is_text, read_offset};
use ion::BuilderFields;

// In a T.
#[tactic(auto, unfolding(ion::specs::Text::ReadText::end_t))]
pub(crate) fn end_t(f: BuilderFields, r: &[u8]) -> Option<BuilderFields>
    ensures { result ≡ end_t f r.now }
{
    is_text(r, b"T").then_some(f)
}

// In a T, or at once.
#[tactic(auto, using(crate::proofs::Endings::dates))]
pub(crate) fn end_date(f: BuilderFields, r: &[u8]) -> Option<BuilderFields>
    ensures { result ≡ end_date f r.now }
{
    if r.is_empty() { Some(f) } else { end_t(f, r) }
}

// In an offset.
#[tactic(auto, unfolding(ion::specs::Text::ReadText::end_offset))]
#[inline(always)]
pub(crate) fn end_offset(f: BuilderFields, r: &[u8]) -> Option<BuilderFields>
    ensures { result ≡ end_offset f r.now }
{
    let offset = read_offset(r)?;
    Some(BuilderFields { offset, ..f })
}

// In digits, one at least, and an offset: 18 make the attoseconds, and 19 stand for any more than 18.
#[tactic(auto, using(crate::proofs::Endings::fractions))]
#[inline(always)]
fn end_digits(f: BuilderFields, r: &[u8]) -> Option<BuilderFields>
    ensures { result ≡ end_digits f r.now }
{
    let run = read_run(r);
    if run.count == 0 {
        return None;
    }
    let digits = run.count.min(19) as u64;
    let attoseconds = run.value * fraction::scale(digits);
    end_offset(
        BuilderFields {
            attoseconds,
            digits,
            ..f
        },
        &r[run.count..],
    )
}

// In an offset, before which a point and digits may stand.
#[tactic(auto, using(crate::proofs::Endings::points))]
#[inline(always)]
pub(crate) fn end_second(f: BuilderFields, r: &[u8]) -> Option<BuilderFields>
    ensures { result ≡ end_second f r.now }
{
    match r.strip_prefix(b".") {
        Some(digits) => end_digits(f, digits),
        None => end_offset(f, r),
    }
}
