// The digits of a text: two after a mark, four of a year, and a run of them.
ghost use Rattle.std.specs.Prelude.{◌≡◌, [], ◌∷◌, true, cond, IfSome, min, ◌+◌, ◌*◌, ◌^◌, ◌≤◌, ◌<◌, ltb, length, drop};
ghost use Rattle.ion.specs.Text.ReadText.{is_digit, digit_run, digit_of, digits_value, read_digits, read_marked};

fn is_digit(b: u8) -> bool
    ensures { result ≡ is_digit b }
{
    b.is_ascii_digit()
}

#[tactic(auto, using(crate::proofs::Runs::digits))]
pub(crate) fn two_digits(tens: u8, units: u8) -> Option<u32>
    ensures value { result ≡ read_digits 2 (tens ∷ units ∷ []) }
    ensures bound { IfSome result (λ n. n < 100) }
{
    if is_digit(tens) && is_digit(units) {
        Some((tens - b'0') as u32 * 10 + (units - b'0') as u32)
    } else {
        None
    }
}

// A mark at index `at` and two digits.
#[tactic(auto, using(crate::proofs::Runs::marked_digits))]
pub(crate) fn read_marked(s: &[u8], at: usize, mark: u8) -> Option<u32>
    requires { at < 2 ^ 63 }
    ensures value { result ≡ read_marked mark (drop at s.now) }
    ensures inside { IfSome result (λ _. at + 3 ≤ length s.now) }
{
    if at + 3 <= s.len() && s[at] == mark {
        two_digits(s[at + 1], s[at + 2])
    } else {
        None
    }
}

// Four digits at the beginning.
#[tactic(auto, using(crate::proofs::Runs::years))]
pub(crate) fn read_year(s: &[u8]) -> Option<u32>
    ensures value { result ≡ read_digits 4 s.now }
    ensures inside { IfSome result (λ _. 4 ≤ length s.now) }
{
    let [a, b, c, d, ..] = s else {
        return None;
    };
    Some(two_digits(*a, *b)? * 100 + two_digits(*c, *d)?)
}

// How many digits there are, and the number that the first 18 of them make.
#[derive(Clone, Copy)]
pub(crate) struct DigitRun {
    pub(crate) count: usize,
    pub(crate) value: u64,
}

// The number that n digits and one more make, of which only the first 18 count.
fn one_more(value: u64, n: usize, b: u8) -> u64
    requires { (value < 10 ^ 18) × (is_digit b ≡ true) }
    ensures { result ≡ cond (ltb n 18) (value * 10 + digit_of b) value }
{
    if n < 18 {
        value * 10 + (b - b'0') as u64
    } else {
        value
    }
}

// The digits with which a text begins.
#[tactic(auto, using(crate::proofs::Reading::reading))]
pub(crate) fn read_run(r: &[u8]) -> DigitRun
    ensures count { result.count ≡ digit_run r.now }
    ensures value { result.value ≡ digits_value (min (digit_run r.now) 18) r.now }
{
    // What is counted is an answer, not an index.
    let mut count = 0;
    let mut value = 0;
    for b in r {
        if !is_digit(*b) {
            break;
        }
        value = one_more(value, count, *b);
        count += 1;
    }
    DigitRun { count, value }
}
