//! The archive record: refusals, bytes to words, and reading a record into its parts.
#![tactic(auto)]

pub mod bytes;
mod order;
mod part;
pub mod parts;
pub mod read;
pub mod refusal;
mod scan;
pub mod sizes;
#[cfg(test)]
mod tests;
pub mod word;
