// The parts of a body.
ghost use Rattle.std.specs.Prelude.{◌≡◌, ◌≤◌, drop, IfSome};
ghost use Rattle.std.specs.Option.{option_map};
ghost use Rattle.ion.specs.Pair.Offset.{WithinDay};
ghost use Rattle.ion.specs.Value.Decode.{signed_offset, decode_fields, precision_with, fields_from, after_offset, body_in, body_by};
ghost use Rattle.value_decoder.specs.BodyParts.{Encodable};
ghost use Rattle.value_decoder.specs.Parsed.{FieldsDecoded};

use crate::forms::Forms;
use ion::offset::OffsetMinutes;
use ion::{Body, Fields, SignedMagnitude, offset};

// Up to six fields, with the first values of those that are not there, how many there are, and the index after them. An array and a
// count, as there is no heap.
#[derive(Clone, Copy)]
struct FieldsRead {
    values: [u32; 6],
    count: usize,
    next: usize,
}

// The fields that a body does not have.
const FIRST_VALUES: [u32; 6] = [0, 1, 1, 0, 0, 0];

// Negative zero is unknown.
fn signed_offset(m: SignedMagnitude) -> Option<OffsetMinutes>
    requires { m.magnitude ≤ 1439 }
    ensures value { result ≡ signed_offset m.negative m.magnitude }
    ensures day { WithinDay result }
{
    match (m.negative, m.magnitude as i32) {
        (false, minutes) => Some(OffsetMinutes::new(minutes)),
        (true, 0) => None,
        (true, minutes) => Some(OffsetMinutes::new(-minutes)),
    }
}

// Up to six fields from index `at` on.
fn read_fields<F: Forms>(s: &[u8], at: usize) -> Option<FieldsRead>
    ensures { FieldsDecoded F.numbers s.now at result }
{
    let mut values = FIRST_VALUES;
    let mut count = 0;
    let mut next = at;
    for value in values.iter_mut() {
        if next >= s.len() {
            break;
        }
        let (x, n) = F::read_field(s, next).ok()?;
        *value = x as u32;
        count += 1;
        next += n;
    }
    Some(FieldsRead {
        values,
        count,
        next,
    })
}

// The precision with a number of fields.
#[tactic(auto, unfolding(ion::specs::Value::Decode::precision_with))]
fn precision_with(count: usize) -> u32
    requires { count ≤ 6 }
    ensures { result ≡ precision_with count }
{
    if 3 < count {
        (count - 2) as u32
    } else {
        count.saturating_sub(1) as u32
    }
}

// UTC fields, of which `count` are there.
fn fields_from(values: [u32; 6], count: usize, digits: u32) -> Fields
    requires { count ≤ 6 }
    ensures { result ≡ fields_from values (precision_with count) digits }
{
    let [year, month, day, hour, minute, second] = values;
    Fields {
        year,
        month,
        day,
        hour,
        minute,
        second,
        precision: precision_with(count),
        digits,
        offset: offset::raw_of(None),
    }
}

// The parts of a body that has fields and a fraction from index `at` on.
#[tactic(auto, using(crate::proofs::FieldSteps::bodies))]
fn after_offset<F: Forms>(s: &[u8], at: usize, offset: Option<OffsetMinutes>) -> Option<Body>
    requires { WithinDay offset }
    ensures value { result ≡ option_map body_in (after_offset F.numbers F.fraction offset (decode_fields F.numbers 6 (drop at s.now))) }
    ensures encodable { IfSome result Encodable }
{
    let fields = read_fields::<F>(s, at)?;
    if fields.count == 0 || fields.count == 4 {
        return None;
    }
    let (digits, coefficient) = F::read_fraction(s, fields.next)?;
    Some(Body {
        offset,
        utc: fields_from(fields.values, fields.count, digits),
        coefficient,
    })
}

// The parts of the body that `s` is, all of it.
#[tactic(auto, using(crate::proofs::FieldSteps::parts))]
pub(crate) fn decode_body<F: Forms>(s: &[u8]) -> Option<Body>
    ensures value { result ≡ body_by F.numbers F.fraction s.now }
    ensures encodable { IfSome result Encodable }
{
    let (minutes, n) = F::read_minutes(s).ok()?;
    after_offset::<F>(s, n, signed_offset(minutes))
}
