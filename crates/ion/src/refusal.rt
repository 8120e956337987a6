// The refusals, and their numbers by the scope's table.
ghost use Rattle.std.specs.Prelude.{◌≡◌, ◌≤◌};
ghost use Rattle.ion.specs.Calls.Refusal.{number_of, number_in};

#[derive(Clone, Copy, Debug, PartialEq, Eq)]
pub enum Refusal {
    // Fraction below 0, or 1 and above.
    Fraction,
    // Year given above 9999.
    Year,
    // Month above 12.
    Month,
    // Day above 31.
    Day,
    // Hour above 23.
    Hour,
    // Minute above 59.
    Minute,
    // Second above 59.
    Second,
    // More than 18 fraction digits.
    Digits,
    // Known offset outside -1439..1439 minutes.
    Offset,
    // Month or finer, and no such calendar day (month 0 and day 0 included).
    NoDay,
    // Local year below 1 or above 9999.
    LocalYear,
    // Packed pair the builder never gives.
    Pair,
    // Input ends inside a value, or inside a scan.
    InputEnds,
    // First byte not 60 to 6E hexadecimal.
    FirstByte,
    // Body or length not a stamp's.
    Body,
    // Buffer shorter than the output.
    ShortBuffer,
    // Program input above 65,536 bytes.
    LongInput,
    // Text in none of the forms.
    Form,
    // Number of a scan padded, without an end mark in five bytes, or above 4,294,967,295.
    Number,
    // Fewer words than the report needs.
    Words,
    // W above 86,400 seconds.
    Window,
    // A 257th post, a site and a tag.
    Posts,
}

impl Refusal {
    // From 1 on, in the order above.
    pub fn number(self) -> u32
        ensures value { result ≡ number_of self }
        ensures bound { result ≤ 22 }
    {
        self as u32 + 1
    }
}

// The number of an answer: 0 for accepted.
pub fn number_in<T>(answer: &Result<T, Refusal>) -> u32
    ensures { result ≡ number_in answer.now }
{
    match answer {
        Ok(_) => 0,
        Err(refusal) => refusal.number(),
    }
}
