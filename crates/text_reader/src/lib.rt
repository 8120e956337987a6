// Timestamps read from text.
#![tactic(auto)]

mod digits;
mod ending;
mod offset;
mod reader;

pub use reader::read_text;
