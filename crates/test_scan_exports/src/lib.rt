// The calls on scans as C functions on numbers and byte slices, for tests. Each returns the number of the call's answer and
// stores the rest of it through references.
#![tactic(auto)]

mod answers;
mod reporting;
mod scanning;
