//! What is said of a record: the text of its pairing, of what the finder answers, and of a refusal.
#![tactic(auto)]

pub mod judge;
pub mod judged;
pub mod say;
#[cfg(test)]
mod tests;
mod text;
