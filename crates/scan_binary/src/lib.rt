// Scans in bytes: written, read, and a whole file of them.
#![tactic(auto)]

mod file;
mod layout;
mod reader;
mod writer;

pub use file::{Scans, check_file};
pub use layout::layout_of;
pub use reader::read_scan;
pub use writer::{write_scan, write_start};
