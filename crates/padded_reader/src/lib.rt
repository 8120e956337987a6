// Values of timestamps in Ion binary, read in every form that the Ion specification allows.
#![tactic(auto)]

mod fractions;
mod int;
mod padded;
mod reader;
mod var_int;

pub use reader::read_padded_value;
