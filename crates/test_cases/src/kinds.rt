// The kinds by their numbers.
ghost use Rattle.std.specs.Prelude.{◌≡◌, false, OnErr};
ghost use Rattle.test_cases.specs.Kinds.{kind_of, head_length, has_run, case_length, length_by_number};

use crate::reports::report_agrees;
use crate::scans_read::{file_agrees, scan_agrees};
use crate::written::{
    padded_agrees, scan_bytes_agree, text_bytes_agree, value_bytes_agree, var_int_agrees,
    var_uint_agrees,
};
use test_answers::{
    build_agrees, byte_at, check_agrees, distance_agrees, order_agrees, padded_read_agrees,
    read_agrees, text_agrees, utc_agrees,
};

// What is recorded: a call, with what it answered.
#[derive(Clone, Copy)]
pub enum Kind {
    Build,
    Check,
    Utc,
    Order,
    Text,
    Value,
    ValueRead,
    Distance,
    VarUInt,
    VarInt,
    Padded,
    TextRead,
    ScanRead,
    Scan,
    File,
    Report,
    PaddedRead,
}

// The number of no kind.
#[derive(Clone, Copy)]
pub struct UnknownKind;

#[tactic(auto, unfolding(crate::specs::Kinds::kind_of))]
impl TryFrom<u8> for Kind {
    type Error = UnknownKind;

    ghost try_from_gives = { λ n result. result ≡ kind_of n };

    fn try_from(n: u8) -> Result<Kind, UnknownKind> {
        match n {
            1 => Ok(Kind::Build),
            2 => Ok(Kind::Check),
            3 => Ok(Kind::Utc),
            4 => Ok(Kind::Order),
            5 => Ok(Kind::Text),
            6 => Ok(Kind::Value),
            7 => Ok(Kind::ValueRead),
            8 => Ok(Kind::Distance),
            9 => Ok(Kind::VarUInt),
            10 => Ok(Kind::VarInt),
            11 => Ok(Kind::Padded),
            12 => Ok(Kind::TextRead),
            13 => Ok(Kind::ScanRead),
            14 => Ok(Kind::Scan),
            15 => Ok(Kind::File),
            16 => Ok(Kind::Report),
            17 => Ok(Kind::PaddedRead),
            _ => Err(UnknownKind),
        }
    }
}

impl Kind {
    // The number of bytes that a case has, without the run of bytes that may end it.
    fn head_length(self) -> usize
        ensures { result ≡ head_length self }
    {
        match self {
            Kind::Build => 65,
            Kind::Check | Kind::Utc => 33,
            Kind::Order => 37,
            Kind::Text | Kind::Value | Kind::TextRead => 18,
            Kind::ValueRead | Kind::PaddedRead => 19,
            Kind::Distance => 50,
            Kind::VarUInt | Kind::VarInt => 9,
            Kind::Padded => 10,
            Kind::ScanRead => 32,
            Kind::Scan => 30,
            Kind::File => 4,
            Kind::Report => 81,
        }
    }

    // Whether a run of bytes ends a case, after its length.
    fn has_run(self) -> bool
        ensures { result ≡ has_run self }
    {
        !matches!(
            self,
            Kind::Build | Kind::Check | Kind::Utc | Kind::Order | Kind::Distance
        )
    }

    // The number of bytes of a case that begins as `r` does.
    #[tactic(auto, unfolding(crate::specs::Kinds::case_length))]
    pub fn case_length(self, r: &[u8]) -> usize
        ensures { result ≡ case_length self r.now }
    {
        let n = self.head_length();
        if self.has_run() {
            n + usize::from(byte_at(r, n - 1))
        } else {
            n
        }
    }

    // Whether the library's answer to a case is the recorded one.
    pub fn agrees(self, r: &[u8]) -> bool {
        match self {
            Kind::Build => build_agrees(r),
            Kind::Check => check_agrees(r),
            Kind::Utc => utc_agrees(r),
            Kind::Order => order_agrees(r),
            Kind::Text => text_bytes_agree(r),
            Kind::Value => value_bytes_agree(r),
            Kind::ValueRead => read_agrees(r),
            Kind::Distance => distance_agrees(r),
            Kind::VarUInt => var_uint_agrees(r),
            Kind::VarInt => var_int_agrees(r),
            Kind::Padded => padded_agrees(r),
            Kind::TextRead => text_agrees(r),
            Kind::ScanRead => scan_agrees(r),
            Kind::Scan => scan_bytes_agree(r),
            Kind::File => file_agrees(r),
            Kind::Report => report_agrees(r),
            Kind::PaddedRead => padded_read_agrees(r),
        }
    }
}

// The number of bytes of a case of the kind with a number, which begins as `r` does: 256, which no record has, for the number
// of no kind.
#[tactic(auto, unfolding(crate::specs::Kinds::length_by_number))]
pub fn case_length(kind: u8, r: &[u8]) -> usize
    ensures { result ≡ length_by_number kind r.now }
{
    match Kind::try_from(kind) {
        Ok(kind) => kind.case_length(r),
        Err(_) => 256,
    }
}

// Whether the library's answer to a case of the kind with a number is the recorded one; no answer is, to the number of no kind.
pub fn agrees(kind: u8, r: &[u8]) -> bool
    ensures { OnErr (kind_of kind) (result ≡ false) }
{
    match Kind::try_from(kind) {
        Ok(kind) => kind.agrees(r),
        Err(_) => false,
    }
}
