// The types of scan files. What each call answers is defined in specs/.
#![tactic(auto)]

use ion::Timestamp;

// How a file holds its scans: in the old layout without their sites.
#[derive(Clone, Copy, Debug, PartialEq, Eq)]
pub enum Layout {
    Old,
    New,
}

// A guard's scan of a tag at a site.
#[derive(Clone, Copy)]
pub struct Scan {
    pub site: u32,
    pub tag: u32,
    pub guard: u32,
    pub stamp: Timestamp,
}

// What a scan is beside the last kept scan of its site and tag. A gap and a backward step are kept too.
#[derive(Clone, Copy)]
pub enum Kind {
    Double,
    Kept,
    Gap,
    Backward,
}

// How many scans there are, and how many of each kind; gaps and backward steps are among the kept.
#[derive(Clone, Copy)]
pub struct Counts {
    pub scans: u64,
    pub doubles: u64,
    pub kept: u64,
    pub gaps: u64,
    pub backward: u64,
}
