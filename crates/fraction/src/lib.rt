// Fractions of a second: the powers of ten, and what each kind of fraction is in attoseconds.
#![tactic(auto)]

mod decimal;
mod powers;
mod units;

pub use decimal::from_decimal;
pub use powers::{cut, power, scale};
pub use units::{
    from_microseconds, from_milliseconds, from_nanoseconds, from_nanoseconds_and_precision,
};
