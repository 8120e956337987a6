// Numbers of Ion binary, written into lent buffers and read from lent bytes. The writers have the Rust's names, each a call of
// `output`'s generic one.
#![tactic(auto)]

pub mod decimal;
pub mod int;
pub mod var_int;
pub mod var_uint;
