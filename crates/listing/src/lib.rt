// The lines that the program `stamps` prints for an input.
#![tactic(auto)]

ghost use Rattle.std.specs.Prelude.{◌+◌, ◌*◌, ◌≤◌, ◌≡◌, length, take, IfOk, OnOk, IfSome};
ghost use Rattle.std.specs.Io.KnownBytes.{Appends};
ghost use Rattle.ion.specs.Calls.Accepted.{Accepted};
ghost use Rattle.ion.specs.Calls.Output.{Run};
ghost use Rattle.ion.specs.Calls.Stamps.{line_of, stop_line, output_of};
ghost use Rattle.ion.specs.Text.Format.{text_of};

use ion::{Refusal, Timestamp};
use std::io::{self, Read, Write};
use text::text_formatter;

// The longest input that is listed.
const MAX_INPUT: usize = 65_536;

// Puts a text and a line feed from index `at` on; the index after them.
fn put_text(buf: &mut [u8], at: usize, s: Timestamp) -> usize
    requires { (at + 45 ≤ length buf.old) × Accepted s }
    ensures run { Run buf.old at (line_of (text_of s)) buf.new result }
    ensures bound { result ≤ at + 45 }
{
    let end = timestamp_text::text_into(buf, at, packed::unpack(s.packed_fields), s.attoseconds);
    output::put(buf, end, b"\n".as_slice())
}

// Puts `stop`, a space, the refusal's number and a line feed from index `at` on; the index after them. Not inlined: with it in `run`
// the output's room is zeroed twice.
#[inline(never)]
fn put_stop(buf: &mut [u8], at: usize, refusal: Refusal) -> usize
    requires { at + 8 ≤ length buf.old }
    ensures run { Run buf.old at (stop_line refusal) buf.new result }
    ensures bound { result ≤ at + 8 }
{
    let number = output::put(buf, at, b"stop ".as_slice());
    let end = text_formatter::put_padded(buf, number, refusal.number() as u64, 1);
    output::put(buf, end, b"\n".as_slice())
}

// Lists the values of `input` from the start of `buf` on; how many bytes that takes.
#[tactic(auto, using(crate::proofs::Listed::listing))]
pub fn list(input: &[u8], buf: &mut [u8]) -> usize
    requires { 15 * length input.now + 8 ≤ length buf.old }
    ensures run { Run buf.old 0 (output_of input.now) buf.new result }
    ensures bound { result ≤ length buf.old }
{
    if MAX_INPUT < input.len() {
        return put_stop(buf, 0, Refusal::LongInput);
    }
    let mut rest = input;
    let mut end = 0;
    while !rest.is_empty() {
        match padded_reader::read_padded_value(rest) {
            Ok((stamp, taken)) => {
                end = put_text(buf, end, stamp);
                rest = &rest[taken..];
            }
            Err(refusal) => return put_stop(buf, end, refusal),
        }
    }
    end
}

// An input may have 65,536 bytes: one more shows that it is longer.
fn input_room() -> [u8; 65_537]
    ensures { 65_537 ≡ length result }
{
    input::zeros()
}

// What `list` asks for so many.
fn output_room() -> [u8; 983_063]
    ensures { 983_063 ≡ length result }
{
    input::zeros()
}

// Reads what decides the output into `buf`, which an input may not fill: the input, or of a longer one the first bytes.
fn read_input<R: Read>(reader: &mut R, buf: &mut [u8]) -> io::Result<usize>
    requires { 65537 ≡ length buf.old }
    ensures size { 65537 ≡ length buf.new }
    ensures bound { IfOk result (λ n. n ≤ length buf.new) }
    ensures bytes { IfOk result (λ n. IfSome (R.remaining reader.old) (λ xs. output_of (take n buf.new) ≡ output_of xs)) }
{
    let n = input::read_full(reader, buf)?;
    Ok(n)
}

// Writes the listing of all that `reader` gives.
pub fn run<R: Read, W: Write>(reader: &mut R, writer: &mut W) -> io::Result<()>
    ensures { OnOk result (IfSome (R.remaining reader.old) (λ xs. Appends (W.contents writer.old) (W.contents writer.new) (output_of xs))) }
{
    let mut input = input_room();
    let n = read_input(reader, &mut input)?;
    let mut output = output_room();
    let end = list(&input[..n], &mut output);
    writer.write_all(&output[..end])
}
