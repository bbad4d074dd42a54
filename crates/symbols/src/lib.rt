// The codes of printed symbols: a block of codewords is a word of a scaled evaluation code, with these points and multipliers.
//
// A block of n codewords, the first of them the coefficient of the highest power, has its r check numbers chosen so that the
// polynomial vanishes at g^b, g^(b+1) and so on. Its points are g^(n-1) down to g^0, its dimension is n - r, and its multipliers
// follow from the points and b.

#![tactic(auto)]

pub mod fault;
mod multipliers;
mod powers;

pub use multipliers::write_multipliers;
pub use powers::{power, write_points};

#[cfg(test)]
mod tests;
