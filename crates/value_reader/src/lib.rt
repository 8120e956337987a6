// Values of timestamps in Ion binary, read: the writer's bytes and no others.
#![tactic(auto)]

mod reader;
mod shortest;

pub use reader::read_value;
