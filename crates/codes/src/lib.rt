// Codes: what a code is, why one declines, and the checks and lists of numbers that all codes share.

#![tactic(auto)]

pub mod checks;
pub mod fault;
pub mod interface;
pub mod numbers;
