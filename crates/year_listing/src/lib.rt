// The lines that the program `year_starts` prints.
#![tactic(auto)]

ghost use Rattle.std.specs.Prelude.{◌+◌, ◌<◌, ◌≤◌, ◌^◌, ◌≡◌, length, OnOk};
ghost use Rattle.std.specs.Io.KnownBytes.{Appends};
ghost use Rattle.ion.specs.Calls.Output.{Run};
ghost use Rattle.ion.specs.Calls.YearListing.{number_line, year_lines};

use std::io::{self, Write};
use text::text_formatter::Padded;
use year_table::year_starts;

// Puts a number in decimal and a line feed from index `at` on; the index after them.
fn put_line(buf: &mut [u8], at: usize, number: u32) -> usize
    requires { at + length (number_line number) ≤ length buf.old }
    ensures { Run buf.old at (number_line number) buf.new result }
{
    let digits = Padded {
        value: number as u64,
        width: 1,
    };
    output::put(buf, at, (digits, b"\n".as_slice()))
}

// Lists the table from the start of `buf` on; how many bytes that takes.
fn list(buf: &mut [u8]) -> usize
    requires { length year_lines ≤ length buf.old }
    ensures { Run buf.old 0 year_lines buf.new result }
{
    let mut end = 0;
    for &start in year_starts() {
        end = put_line(buf, end, start);
    }
    end
}

// Writes the lines of all years: of 10,001, each has eight bytes at most.
#[tactic(auto, using(crate::proofs::Lines::listing_length))]
pub fn run<W: Write>(writer: &mut W) -> io::Result<()>
    ensures { OnOk result (Appends (W.contents writer.old) (W.contents writer.new) year_lines) }
{
    let mut output = input::zeros::<80_008>();
    let end = list(&mut output);
    writer.write_all(&output[..end])
}
