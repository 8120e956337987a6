// Reads values from standard input and prints the text of each, as `listing` says.
#![tactic(auto)]

use std::io;

fn main(rt: HostRuntime) -> io::Result<()> {
    listing::run(&mut rt.reader(), &mut io::writer(&rt))
}
