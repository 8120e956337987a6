// Port of text/text_formatter.rs: numbers in decimal with zeros in front, written from the back.
ghost use Rattle.std.specs.Prelude.{◌≡◌, ◌+◌, ◌-◌, ◌^◌, ◌≤◌, ◌<◌, max, length};
ghost use Rattle.ion.specs.Calls.Output.{put, wrote, Run};
ghost use Rattle.ion.specs.Numbers.Padded.{digit_count, padded};

use ion::Refusal;
use output::Encode;

// How many digits a number below 10^5 has.
fn digit_count_5(value: u64) -> usize
    requires { value < 10 ^ 5 }
    ensures { result ≡ digit_count value }
{
    match value {
        0..=9 => 1,
        10..=99 => 2,
        100..=999 => 3,
        1_000..=9_999 => 4,
        _ => 5,
    }
}

// How many digits `value` has, without a pass over them.
fn digit_count(value: u64) -> usize
    ensures { result ≡ digit_count value }
{
    if value < 100_000 {
        return digit_count_5(value);
    }
    if value < 10_000_000_000 {
        return 5 + digit_count_5(value / 100_000);
    }
    if value < 1_000_000_000_000_000 {
        return 10 + digit_count_5(value / 10_000_000_000);
    }
    15 + digit_count_5(value / 1_000_000_000_000_000)
}

// A number with zeros in front up to `width` digits.
#[derive(Clone, Copy)]
pub struct Padded {
    pub value: u64,
    pub width: usize,
}

impl Encode for Padded {
    ghost bytes = { λ p. padded p.width p.value };

    #[tactic(auto, using(crate::proofs::Digits::length_padded))]
    fn encoded_size(self) -> usize {
        digit_count(self.value).max(self.width)
    }

    #[tactic(auto, using(crate::proofs::Digits::whole))]
    fn encode(self, room: &mut [u8]) {
        let end = room.len();
        put_digits(room, end, self.value, self.width);
    }
}

// Writes `value`, with zeros in front up to `width` digits, from index `at` on.
#[tactic(auto, using(crate::proofs::Digits::sizes))]
pub fn write_zero_padded(
    buf: &mut [u8],
    at: usize,
    value: u64,
    width: usize,
) -> Result<usize, Refusal>
    ensures value { result ≡ wrote buf.old at (padded width value) }
    ensures buffer { buf.new ≡ put buf.old at (padded width value) }
{
    output::write(buf, at, Padded { value, width })
}

// ---- inside a writer that has room

// Writes `value`, with zeros in front up to `width` digits, in front of index `end`: the last digit first, each into its place,
// until the width and the number are both done. By index, as `output::put_places`.
#[tactic(auto, using(crate::proofs::Padding::padding_some))]
pub fn put_digits(buf: &mut [u8], end: usize, value: u64, width: usize)
    requires { (max width (digit_count value) ≤ end) × (end ≤ length buf.old) }
    ensures { Run buf.old (end - max width (digit_count value)) (padded width value) buf.new end }
{
    let mut q = value;
    for i in (0..end).rev() {
        buf[i] = b'0' + (q % 10) as u8;
        q /= 10;
        if width <= end - i && q == 0 {
            return;
        }
    }
}

// Writes it from index `at` on; the index after it.
#[tactic(auto, using(crate::proofs::Digits::length_padded))]
pub fn put_padded(buf: &mut [u8], at: usize, value: u64, width: usize) -> usize
    requires { at + max width (digit_count value) ≤ length buf.old }
    ensures { Run buf.old at (padded width value) buf.new result }
{
    output::put(buf, at, Padded { value, width })
}

// Two digits, as a month, a day, an hour, a minute or a second has; the index after them.
pub fn put_two(buf: &mut [u8], at: usize, value: u32) -> usize
    requires { (at + 2 ≤ length buf.old) × (value < 100) }
    ensures { Run buf.old at (padded 2 value) buf.new result }
{
    buf[at + 1] = b'0' + (value % 10) as u8;
    buf[at] = b'0' + (value / 10) as u8;
    at + 2
}

// Four digits, as a year has; the index after them.
pub fn put_four(buf: &mut [u8], at: usize, value: u32) -> usize
    requires { (at + 4 ≤ length buf.old) × (value < 10000) }
    ensures { Run buf.old at (padded 4 value) buf.new result }
{
    let end = put_two(buf, at + 2, value % 100);
    put_two(buf, at, value / 100);
    end
}
