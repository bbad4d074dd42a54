// The collector: strips by place, the sheet that they carry, and what holds of every run of calls.

#![tactic(auto)]

pub mod call;
pub mod collector;
pub mod fault;
pub mod fitness;
pub mod run;
mod table;
