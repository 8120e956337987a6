// Whether the library's answer about timestamps is the recorded one, for each kind of case but those of writers.
// The file's format stands in differential/README.md.
#![tactic(auto)]

mod built;
mod fields;
mod orders;
mod read;

pub use built::{NO_STAMP, build_agrees, check_agrees, utc_agrees};
pub use fields::{byte_at, half_at, pair_at, word_at};
pub use orders::{distance_agrees, order_agrees};
pub use read::{padded_read_agrees, read_agrees, text_agrees};
