// Writing into a lent buffer at a position: the one test for room, and the one copy. A buffer and a position go together through
// all writers: a position past the end is refused, so a slice from there on would ask more of who calls.
#![tactic(auto)]

ghost use Rattle.std.specs.Prelude.{◌≡◌, ℕ, List, ◌++◌, ◌+◌, ◌^◌, ◌<◌, ◌≤◌, length};
ghost use Rattle.places.specs.Places.{places, byte_from};
ghost use Rattle.ion.specs.Calls.Output.{put, room_for, wrote, Run};

use ion::Refusal;

// What a writer of `n` bytes from index `at` on answers, in a buffer of `size` bytes: their number.
#[tactic(auto, unfolding(ion::specs::Calls::Output::room_for))]
pub fn room_for(size: usize, at: usize, n: usize) -> Result<usize, Refusal>
    ensures { result ≡ room_for size at n }
{
    if at <= size && n <= size - at {
        Ok(n)
    } else {
        Err(Refusal::ShortBuffer)
    }
}

// Fills `bytes` with the lowest places of `value` in base `BASE`, highest first, the byte of a place `FIRST` more than it. By
// index: of the bytes behind `iter_mut` a proof knows nothing afterwards.
#[tactic(auto, using(places::proofs::Laws::first_stored), unfolding(places::specs::Places::places, places::specs::Places::places_on))]
pub fn put_places<const BASE: u64, const FIRST: u8>(bytes: &mut [u8], value: u64)
    requires base { 1 < BASE }
    requires byte { FIRST + BASE ≤ 256 }
    ensures { bytes.new ≡ places BASE (byte_from FIRST) (length bytes.old) value }
{
    let mut rest = value;
    for i in (0..bytes.len()).rev() {
        bytes[i] = FIRST + (rest % BASE) as u8;
        rest /= BASE;
    }
}

// What has bytes of its own, which it writes into room of just their number.
pub trait Encode: Copy {
    ghost bytes: { Self → List ℕ };

    fn encoded_size(self) -> usize
        requires { length (bytes self) < 2 ^ 64 }
        ensures { result ≡ length (bytes self) };

    fn encode(self, room: &mut [u8])
        requires { length room.old ≡ length (bytes self) }
        ensures { room.new ≡ bytes self };
}

impl Encode for &[u8] {
    ghost bytes = { λ s. s.now };

    fn encoded_size(self) -> usize {
        self.len()
    }

    fn encode(self, room: &mut [u8]) {
        room.copy_from_slice(self);
    }
}

// One after the other.
impl<A: Encode, B: Encode> Encode for (A, B) {
    ghost bytes = { λ pair. A.bytes pair.0 ++ B.bytes pair.1 };

    fn encoded_size(self) -> usize {
        self.0.encoded_size() + self.1.encoded_size()
    }

    fn encode(self, room: &mut [u8]) {
        let middle = self.0.encoded_size();
        self.0.encode(&mut room[..middle]);
        self.1.encode(&mut room[middle..]);
    }
}

// Writes the bytes of `item` from index `at` on, where there is room for them; the index after them.
pub fn put<E: Encode>(buf: &mut [u8], at: usize, item: E) -> usize
    requires { at + length (E.bytes item) ≤ length buf.old }
    ensures { Run buf.old at (E.bytes item) buf.new result }
{
    let end = at + item.encoded_size();
    item.encode(&mut buf[at..end]);
    end
}

// Writes the bytes of `item` from index `at` on.
#[tactic(auto, unfolding(ion::specs::Calls::Output::room_for, ion::specs::Calls::Output::put))]
pub fn write<E: Encode>(buf: &mut [u8], at: usize, item: E) -> Result<usize, Refusal>
    requires { length (E.bytes item) < 2 ^ 64 }
    ensures value { result ≡ wrote buf.old at (E.bytes item) }
    ensures buffer { buf.new ≡ put buf.old at (E.bytes item) }
{
    let n = room_for(buf.len(), at, item.encoded_size())?;
    item.encode(&mut buf[at..at + n]);
    Ok(n)
}

// Writes the bytes of `src` from index `at` on.
pub fn put_bytes(buf: &mut [u8], at: usize, src: &[u8]) -> Result<usize, Refusal>
    ensures value { result ≡ wrote buf.old at src.now }
    ensures buffer { buf.new ≡ put buf.old at src.now }
{
    write(buf, at, src)
}
