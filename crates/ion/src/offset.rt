// Offsets from UTC. A raw number is never read as minutes, nor minutes as a raw number: only the functions
// here go from one to the other.
ghost use Rattle.std.specs.Prelude.{◌≡◌, ◌<◌, nat_abs, neg_ℤ, ◌-ℤ◌};
ghost use Rattle.ion.specs.Pair.Offset.{offset_minutes, raw_offset, offset_of, raw_of, minutes_of, is_offset, WithinDay};

// The text of an unknown offset.
pub const UNKNOWN_TEXT: [u8; 6] = *b"-00:00";

// The text of a known offset of zero.
pub const ZERO_TEXT: [u8; 6] = *b"+00:00";

// The biased 12-bit number of a packed word: 0 for unknown, else minutes plus 1,440.
#[derive(Clone, Copy)]
pub struct RawOffset(u16);

// Minutes east of UTC.
#[derive(Clone, Copy)]
pub struct OffsetMinutes(i32);

impl RawOffset {
    pub fn new(bits: u16) -> RawOffset
        ensures { result ≡ raw_offset bits }
    {
        RawOffset(bits)
    }

    pub fn bits(self) -> u16
        ensures { result ≡ self.0 }
    {
        self.0
    }
}

impl OffsetMinutes {
    pub fn new(minutes: i32) -> OffsetMinutes
        ensures { result ≡ offset_minutes minutes }
    {
        OffsetMinutes(minutes)
    }

    pub fn minutes(self) -> i32
        ensures { result ≡ self.0 }
    {
        self.0
    }

    // Whether the minutes are those of a known offset: less than a day either way.
    pub fn is_offset(self) -> bool
        ensures { result ≡ is_offset self.0 }
    {
        -1440 < self.0 && self.0 < 1440
    }

    // The minutes to add for UTC.
    pub fn negated(self) -> OffsetMinutes
        requires { nat_abs self.0 < 1440 }
        ensures { result ≡ offset_minutes (neg_ℤ self.0) }
    {
        OffsetMinutes(-self.0)
    }

    // The difference of two offsets, this less the other.
    pub fn minus(self, other: OffsetMinutes) -> i32
        requires { (nat_abs self.0 < 1440) × (nat_abs other.0 < 1440) }
        ensures { result ≡ self.0 -ℤ other.0 }
    {
        self.0 - other.0
    }
}

// The offset that a raw number stands for; none where it is unknown.
pub fn offset_of(raw: RawOffset) -> Option<OffsetMinutes>
    ensures { result ≡ offset_of raw }
{
    match raw.0 {
        0 => None,
        n => Some(OffsetMinutes(n as i32 - 1440)),
    }
}

// The raw number of an offset.
pub fn raw_of(offset: Option<OffsetMinutes>) -> RawOffset
    requires { WithinDay offset }
    ensures { result ≡ raw_of offset }
{
    match offset {
        None => RawOffset(0),
        Some(m) => RawOffset((m.0 + 1440) as u16),
    }
}

// The minutes to subtract for UTC: none where the offset is unknown.
pub fn minutes_of(offset: Option<OffsetMinutes>) -> OffsetMinutes
    ensures { result ≡ offset_minutes (minutes_of offset) }
{
    offset.unwrap_or(OffsetMinutes(0))
}
