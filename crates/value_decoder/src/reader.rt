// A reader of values, by the forms that it takes.
ghost use Rattle.std.specs.Prelude.{◌≡◌, ◌+◌, ◌≤◌, ◌↔◌, IsTrue, drop, length};
ghost use Rattle.ion.specs.Value.Decode.{local_by};
ghost use Rattle.ion.specs.Value.ReadValue.{read_after, read_by};
ghost use Rattle.ion.specs.Value.ReadPaddedValue.{offset_fits};
ghost use Rattle.value_decoder.specs.BodyParts.{Encodable, UtcInBounds, PartsRead, stamp_by};

use crate::decoder::decode_body;
use crate::forms::Forms;
use ion::offset::OffsetMinutes;
use ion::{Body, Fields, Refusal, Timestamp, offset};
use timestamp_binary::{LENGTH_FOLLOWS, TYPE_DESCRIPTOR};

// Whether an offset may stand beside a precision: a known one only from the hour on.
fn offset_fits(precision: u32, offset: Option<OffsetMinutes>) -> bool
    ensures { result ≡ offset_fits precision offset }
{
    offset.is_none() || 3 <= precision
}

// Whether the parts are those of some timestamp, but for its local year.
#[tactic(auto, using(crate::proofs::PartsTested::bounds))]
fn utc_in_bounds(x: Body) -> bool
    ensures { IsTrue result ↔ UtcInBounds x }
{
    let u = x.utc;
    u.year <= 10000
        && u.hour <= 23
        && u.minute <= 59
        && u.second <= 59
        && u.digits <= 18
        && offset_fits(u.precision, x.offset)
        && x.coefficient < fraction::power(u.digits as u64)
        && calendar::is_date(u.time().date())
}

// The local fields of parts.
#[inline(always)]
fn local_fields(x: Body) -> Fields
    requires { Encodable x × UtcInBounds x }
    ensures { result ≡ local_by x.offset x.utc }
{
    match x.offset {
        None => x.utc,
        Some(m) => timestamp::shifted_fields(x.utc, m, offset::raw_of(x.offset)),
    }
}

// The timestamp of parts. Its local year decides, not the UTC year.
#[inline(always)]
#[tactic(auto, using(crate::proofs::LocalFields::local_fields), unfolding(ion::specs::Value::Decode::pair_from))]
fn read_parts(x: Body) -> Result<Timestamp, Refusal>
    requires { Encodable x }
    ensures { PartsRead x result }
{
    if !utc_in_bounds(x) {
        return Err(Refusal::Body);
    }
    let f = local_fields(x);
    if f.year < 1 || 9999 < f.year {
        return Err(Refusal::Body);
    }
    Ok(Timestamp {
        packed_fields: packed::pack(f),
        attoseconds: x.coefficient * fraction::scale(x.utc.digits as u64),
    })
}

// The timestamp of the body of `n` bytes after a header of `header` bytes, and how many bytes these are together.
#[tactic(auto, using(crate::proofs::PartsReadings::readings))]
fn read_after<F: Forms>(s: &[u8], header: usize, n: usize) -> Result<(Timestamp, usize), Refusal>
    requires { header ≤ length s.now }
    ensures { result ≡ read_after (stamp_by F.numbers F.fraction) F.length_of header n (drop header s.now) }
{
    let body = s[header..].get(..n).ok_or(Refusal::InputEnds)?;
    let x = decode_body::<F>(body).ok_or(Refusal::Body)?;
    Ok((read_parts(x)?, header + n))
}

// The value with which `s` begins: its timestamp, and how many bytes it takes. Bytes after it are not read.
#[tactic(auto, unfolding(ion::specs::Value::ReadValue::read_by))]
pub fn read<F: Forms>(s: &[u8]) -> Result<(Timestamp, usize), Refusal>
    ensures { result ≡ read_by (stamp_by F.numbers F.fraction) F.length_of s.now }
{
    match s {
        [] => Err(Refusal::InputEnds),
        [LENGTH_FOLLOWS, rest @ ..] => {
            let (n, k) = F::read_length(rest)?;
            read_after::<F>(s, 1 + k, n)
        }
        [d @ TYPE_DESCRIPTOR..=LENGTH_FOLLOWS, ..] => {
            read_after::<F>(s, 1, (d - TYPE_DESCRIPTOR) as usize)
        }
        _ => Err(Refusal::FirstByte),
    }
}
