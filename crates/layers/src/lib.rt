// Layers over any code, which are codes again: trimmed messages and scaled words.

#![tactic(auto)]

mod scaled;
mod scaling;
mod trimmed;

pub use scaled::Scaled;
pub use trimmed::Trimmed;

#[cfg(test)]
mod tests;
