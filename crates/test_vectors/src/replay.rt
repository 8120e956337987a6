// The cases of a file, source by source.
ghost use Rattle.std.specs.Prelude.{length, IfOk};
ghost use Rattle.test_vectors.specs.Records.{Counted};

use crate::lines::{print_broken, print_counts};
use crate::records::{Record, split_record};
use std::io::{self, Write};

// How many cases there are, and how many of them agree.
#[derive(Clone, Copy)]
pub struct Tally {
    pub records: usize,
    pub agreed: usize,
}

const NO_CASES: Tally = Tally {
    records: 0,
    agreed: 0,
};

// The cases with which the bytes begin, up to a record that is none, and what comes after them.
fn count_cases(bytes: &[u8]) -> (Tally, &[u8])
    ensures { Counted (length bytes.now) result.0 (length result.1.now) }
{
    let mut rest = bytes;
    let mut tally = NO_CASES;
    while let Some((Record::Case(kind, case), after)) = split_record(rest) {
        tally.records += 1;
        tally.agreed += usize::from(kind.agrees(case));
        rest = after;
    }
    (tally, rest)
}

// The cases of the sources, up to a record that is no source, and what comes after them; prints a line for each source.
fn count_sources<'a, W: Write>(out: &mut W, file: &'a [u8]) -> io::Result<(Tally, &'a [u8])>
    ensures { IfOk result (λ counted. Counted (length file.now) counted.0 (length counted.1.now)) }
{
    let mut rest = file;
    let mut total = NO_CASES;
    while let Some((Record::Source(name), cases)) = split_record(rest) {
        let (tally, after) = count_cases(cases);
        print_counts(out, tally, b", ", name)?;
        total.records += tally.records;
        total.agreed += tally.agreed;
        rest = after;
    }
    Ok((total, rest))
}

// Whether the bytes are an end record with that number of cases.
fn ends(bytes: &[u8], records: usize) -> bool {
    match split_record(bytes) {
        Some((Record::End(count), rest)) => rest.is_empty() && count as usize == records,
        _ => false,
    }
}

// Prints a line for each source, and then how many cases agree, or that the file is broken: it must end
// in an end record with the number of its cases, and each case must come after a source.
pub(crate) fn replay<W: Write>(out: &mut W, file: &[u8]) -> io::Result<()> {
    let (total, rest) = count_sources(out, file)?;
    if ends(rest, total.records) {
        print_counts(out, total, b" agree", b"")
    } else {
        print_broken(out, total.records)
    }
}
