// What the readers of single numbers of Ion binary find.

// Why there is none: the input ends inside it, or its bytes are no shortest form within the limit.
#[derive(Clone, Copy, Debug, PartialEq, Eq)]
pub enum NumberError {
    Cut,
    Bad,
}

// A number by its sign and its size: negative zero is one of its own.
#[derive(Clone, Copy)]
pub struct SignedMagnitude {
    pub negative: bool,
    pub magnitude: u64,
}
