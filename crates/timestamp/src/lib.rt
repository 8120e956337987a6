// The packed check and the UTC form.
#![tactic(auto)]

mod accepted;
mod checking;
mod utc;

pub use accepted::is_accepted;
pub use checking::{check, try_from_bits};
pub use utc::{shifted_fields, to_utc, utc_fields};
