// The records of a file: a kind, the number of bytes that follow, and these.
ghost use Rattle.std.specs.Prelude.{◌+◌, ◌-◌, ◌≤◌, length, IfSome};
ghost use Rattle.test_vectors.specs.Records.{Holds, Inside};

use test_answers::half_at;
use test_cases::Kind;

// A source has its name, a case its bytes, and the end the number of cases that the file is to have.
#[derive(Clone, Copy)]
pub enum Record<'a> {
    Source(&'a [u8]),
    Case(Kind, &'a [u8]),
    End(u32),
}

// The case of a kind whose bytes are `bytes`; none where it is broken.
fn case_of(kind: u8, bytes: &[u8]) -> Option<Record<'_>>
    ensures bytes { IfSome result (Holds bytes.now) }
    ensures inside { IfSome result (Inside (2 + length bytes.now)) }
{
    let kind = Kind::try_from(kind).ok()?;
    (kind.case_length(bytes) == bytes.len()).then_some(Record::Case(kind, bytes))
}

// The record of a kind, a number as the files have it, whose bytes are `bytes`; none where it is broken.
fn record_of(kind: u8, bytes: &[u8]) -> Option<Record<'_>>
    ensures bytes { IfSome result (Holds bytes.now) }
    ensures inside { IfSome result (Inside (2 + length bytes.now)) }
{
    match kind {
        0 => Some(Record::Source(bytes)),
        255 if bytes.len() == 4 => Some(Record::End(half_at(bytes, 0))),
        _ => case_of(kind, bytes),
    }
}

// The record with which a file begins, and what comes after it; none where it is broken or the file is empty.
pub(crate) fn split_record(file: &[u8]) -> Option<(Record<'_>, &[u8])>
    ensures fewer { IfSome result (λ split. 2 + length split.1.now ≤ length file.now) }
    ensures inside { IfSome result (λ split. Inside (length file.now - length split.1.now) split.0) }
{
    let [kind, n, rest @ ..] = file else {
        return None;
    };
    let (bytes, rest) = rest.split_at_checked(usize::from(*n))?;
    Some((record_of(*kind, bytes)?, rest))
}
