// The file: strips, and a trailer that says what they are strips of.

#![tactic(auto)]

pub mod choice;
pub mod fault;
pub mod heading;
pub mod reader;
pub mod received;
pub mod source;
pub mod theorems;
mod writing;

pub use writing::write;
