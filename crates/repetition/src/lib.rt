// The repetition code: a word is one number, repeated.

#![tactic(auto)]

mod majority;
mod repetition;

pub use repetition::Repetition;

#[cfg(test)]
mod tests;
