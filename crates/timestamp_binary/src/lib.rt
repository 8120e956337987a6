// Values of timestamps in Ion binary, written.
#![tactic(auto)]

mod body;
mod value;

pub use body::{MAX_BODY_LENGTH, MAX_TIMESTAMP_LENGTH, encode_timestamp};
pub use value::{
    LENGTH_FOLLOWS, MAX_INLINE_LENGTH, Span, TYPE_DESCRIPTOR, encode_timestamp_value, gather_value,
    gathered_value,
};
