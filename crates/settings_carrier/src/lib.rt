// The carrier for callers in C. Numbers and slices cross, nothing is allocated, and every input is answered.

#![tactic(auto)]

pub mod decoding;
pub mod reading;
pub mod report;
pub mod writing;
