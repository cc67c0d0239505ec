//! Graphs of up to 256 members: sets of members, connected parts, chains of four, and sets that split down to single members.
#![tactic(auto)]

pub mod answers;
pub mod chains;
pub mod graphs;
pub mod sets;
pub mod splits;
pub mod stored;
#[cfg(test)]
mod tests;
pub mod walks;
