// Prints the number of 1 January for each year 0 to 10000, as `year_listing` says.
#![tactic(auto)]

use std::io;

fn main(rt: HostRuntime) -> io::Result<()> {
    year_listing::run(&mut io::writer(&rt))
}
