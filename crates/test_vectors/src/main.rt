// Replays recorded answers of the Rust, read from standard input, against the library, and prints how many agree.
// The file's format stands in differential/README.md.
#![tactic(auto)]

mod lines;
mod records;
mod replay;

use std::io;

// A file has fewer bytes than this: a longer one is taken for broken.
const ROOM: usize = 524_288;

fn main(rt: HostRuntime) -> io::Result<()> {
    let mut file: [u8; ROOM] = input::zeros();
    let n = input::read_full(&mut rt.reader(), &mut file)?;
    let mut out = io::writer(&rt);
    if n == ROOM {
        return lines::print_broken(&mut out, 0);
    }
    replay::replay(&mut out, &file[..n])
}
