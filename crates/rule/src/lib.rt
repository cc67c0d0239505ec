//! Rule texts: which atoms a question asks for, read from its bytes.
#![tactic(auto)]

mod numbers;
mod reader;
mod reading;
mod refusal;
mod rules;
#[cfg(test)]
mod tests;
mod tokens;

pub use reading::read;
pub use refusal::Refusal;
pub use rules::{Atom, Rule, Term};
