// The decoder of values of timestamps in Ion binary, for the readers above it: each says which forms of numbers it takes.
#![tactic(auto)]

mod decoder;
mod forms;
mod reader;

pub use forms::{Forms, MAX_FIELD, MAX_MINUTES};
pub use reader::read;
