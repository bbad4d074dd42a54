// Polynomials and linear equations over any field, on lent numbers.

#![tactic(auto)]

pub mod divide;
pub mod fault;
pub mod polynomial;
mod rows;
pub mod solve;
#[cfg(test)]
mod tests;
