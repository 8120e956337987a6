// Port of binary/timestamp.rs: a timestamp as a value of Ion binary, its header in front of its body.
ghost use Rattle.std.specs.Prelude.{◌+◌, ◌≡◌, ◌≤◌, length};
ghost use Rattle.ion.specs.Calls.Output.{Between, put_after, wrote_after};
ghost use Rattle.ion.specs.Calls.Check.{check_of};
ghost use Rattle.ion.specs.Calls.Accepted.{Accepted};
ghost use Rattle.ion.specs.Value.Encode.{body_of, value_of};

use crate::body::{MAX_TIMESTAMP_LENGTH, put_body};
use binary::var_uint::END_FLAG;
use ion::{Refusal, Timestamp};

// The type descriptor of a timestamp, to which the length of its body is added.
pub const TYPE_DESCRIPTOR: u8 = 0x60;

// The longest body whose length the type descriptor holds.
pub const MAX_INLINE_LENGTH: usize = 13;

// The type descriptor of a longer body: its length follows.
pub const LENGTH_FOLLOWS: u8 = 0x6e;

// Where bytes stand in an array.
#[derive(Clone, Copy)]
pub struct Span {
    pub start: usize,
    pub end: usize,
}

// Gathers the value of an accepted timestamp in `bytes`, and answers where it stands: its header goes into the two bytes before
// its body, which begins at index 2.
#[tactic(auto, using(crate::proofs::Headers::headers))]
pub fn gather_value(bytes: &mut [u8], s: Timestamp) -> Span
    requires accepted { Accepted s }
    requires room { 20 ≤ length bytes.old }
    ensures value { Between bytes.new result.start result.end (value_of s) }
    ensures end { result.end ≡ 2 + length (body_of s) }
{
    let end = put_body(bytes, 2, s);
    let length = end - 2;
    if length <= MAX_INLINE_LENGTH {
        bytes[1] = TYPE_DESCRIPTOR + length as u8;
        Span { start: 1, end }
    } else {
        bytes[0] = LENGTH_FOLLOWS;
        bytes[1] = END_FLAG + length as u8;
        Span { start: 0, end }
    }
}

// Gathers the value of an accepted timestamp in `bytes`, as `gather_value` does, and lends it.
pub fn gathered_value(bytes: &mut [u8], s: Timestamp) -> &[u8]
    requires accepted { Accepted s }
    requires room { 20 ≤ length bytes.old }
    ensures { result.now ≡ value_of s }
{
    let Span { start, end } = gather_value(bytes, s);
    &bytes[start..end]
}

// Writes the value of a timestamp from index `at` on.
#[tactic(auto, unfolding(ion::specs::Calls::Output::put_after, ion::specs::Calls::Output::wrote_after))]
pub fn encode_timestamp_value(buf: &mut [u8], at: usize, s: Timestamp) -> Result<usize, Refusal>
    ensures value { result ≡ wrote_after (check_of s) buf.old at (value_of s) }
    ensures buffer { buf.new ≡ put_after (check_of s) buf.old at (value_of s) }
{
    timestamp::check(s)?;
    let mut bytes = [0u8; MAX_TIMESTAMP_LENGTH];
    let value = gathered_value(&mut bytes, s);
    output::put_bytes(buf, at, value)
}
