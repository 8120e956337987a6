// The lines that the program prints.
use crate::replay::Tally;
use std::io::{self, Write};

// How many agree, and what is said of them.
pub(crate) fn print_counts<W: Write>(
    out: &mut W,
    tally: Tally,
    mark: &[u8],
    said: &[u8],
) -> io::Result<()> {
    write!(out, "{} of {}", tally.agreed, tally.records)?;
    out.write_all(mark)?;
    out.write_all(said)?;
    out.write_all(b"\n")
}

pub(crate) fn print_broken<W: Write>(out: &mut W, records: usize) -> io::Result<()> {
    writeln!(out, "broken file after {records} records")
}
