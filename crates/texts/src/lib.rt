// Lines of words and numbers, as the programs take and print them.

#![tactic(auto)]

pub mod fault;
pub mod spaced;
#[cfg(test)]
mod tests;
pub mod words;
