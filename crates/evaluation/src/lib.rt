// The evaluation code over any field: words are the values of a polynomial, and a decoder finds the polynomial again.

#![tactic(auto)]

mod decode;
mod equations;
mod evaluation;
mod points;
mod received;

pub use evaluation::Evaluation;
