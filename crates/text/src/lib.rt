// Lines of text taken apart and put together, and a program's input answered line by line.
#![tactic(auto)]

pub mod answers;
pub mod put;
pub mod refusal;
pub mod spelt;
