// The kinds of recorded cases: how long each is, and whether the library's answer is the recorded one.
// The file's format stands in differential/README.md.
#![tactic(auto)]

mod kinds;
mod reports;
mod scans_read;
mod written;

pub use kinds::{Kind, UnknownKind, agrees, case_length};
