// The calendar's calls as C functions on numbers, for tests.
#![tactic(auto)]

mod months;
mod shifting;
mod years;
