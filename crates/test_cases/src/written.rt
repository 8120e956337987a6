// Records of what a writer writes: a text, a value, a single number, or a scan. The bytes are the rest of the record. A
// line for each writer.
ghost use Rattle.std.specs.Prelude.{◌≤◌};

use crate::scans_read::scan_at;
use binary::{var_int, var_uint};
use ion::Refusal;
use ion::refusal::number_in;
use test_answers::{byte_at, pair_at, word_at};
use text::text_formatter;

// What a buffer is filled with before the call.
const BEFORE: u8 = 0xAA;

// Whether the buffer begins with the bytes, and past them is as it was.
fn holds(buf: &[u8], bytes: &[u8]) -> bool {
    buf.strip_prefix(bytes)
        .is_some_and(|rest| rest.iter().all(|b| *b == BEFORE))
}

// Whether the writer, lent `size` bytes of a buffer, answers so, writes the bytes, and leaves the rest of the buffer.
fn answers<F: Fn(&mut [u8]) -> Result<usize, Refusal>>(
    write: &F,
    size: usize,
    number: u32,
    bytes: &[u8],
) -> bool
    requires callable { F.IsAlwaysCallable write.now }
    requires size { size ≤ 256 }
{
    let mut buf = [BEFORE; 256];
    let a = write(&mut buf[..size]);
    (number_in(&a), a.unwrap_or(0)) == (number, bytes.len()) && holds(&buf, bytes)
}

// Whether the writer answers with the number and writes the bytes from index `from` on in a long buffer, and an accepted one also in
// a buffer of as many bytes as it writes, but finds a byte less too short.
fn writes<F: Fn(&mut [u8]) -> Result<usize, Refusal>>(
    write: &F,
    number: u8,
    r: &[u8],
    from: usize,
) -> bool
    requires { F.IsAlwaysCallable write.now }
{
    let Some(bytes) = r.get(from..) else {
        return false;
    };
    if !answers(write, 256, u32::from(number), bytes) {
        return false;
    }
    let n = bytes.len();
    let too_short = Refusal::ShortBuffer.number();
    number != 0
        || (1..=256).contains(&n)
            && answers(write, n, 0, bytes)
            && answers(write, n - 1, too_short, b"")
}

// ---- a text, a value and a scan have a number before their bytes; a single number is always accepted

pub(crate) fn text_bytes_agree(r: &[u8]) -> bool {
    let s = pair_at(r, 0);
    writes(
        &|buf| timestamp_text::format(buf, 0, s),
        byte_at(r, 16),
        r,
        18,
    )
}

pub(crate) fn value_bytes_agree(r: &[u8]) -> bool {
    let s = pair_at(r, 0);
    writes(
        &|buf| timestamp_binary::encode_timestamp_value(buf, 0, s),
        byte_at(r, 16),
        r,
        18,
    )
}

pub(crate) fn scan_bytes_agree(r: &[u8]) -> bool {
    let scan = scan_at(r, 0);
    writes(
        &|buf| scan_binary::write_scan(buf, 0, scan),
        byte_at(r, 28),
        r,
        30,
    )
}

pub(crate) fn var_uint_agrees(r: &[u8]) -> bool {
    let value = word_at(r, 0);
    writes(&|buf| var_uint::write_u64(buf, 0, value), 0, r, 9)
}

pub(crate) fn var_int_agrees(r: &[u8]) -> bool {
    let value = word_at(r, 0).cast_signed();
    writes(&|buf| var_int::write_i64(buf, 0, value), 0, r, 9)
}

pub(crate) fn padded_agrees(r: &[u8]) -> bool {
    let value = word_at(r, 0);
    let width = usize::from(byte_at(r, 8));
    writes(
        &|buf| text_formatter::write_zero_padded(buf, 0, value, width),
        0,
        r,
        10,
    )
}
