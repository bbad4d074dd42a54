// Fields: arithmetic on numbers of 16 bits, known above this crate by its laws alone.

#![tactic(auto)]

pub mod any;
pub mod fault;
pub mod field;
pub mod gf256;
pub mod numbers;
pub mod prime;
#[cfg(test)]
mod tests;
