//! The board: offers, compensation chains, turns and questions, written once for every ranking.
#![tactic(auto)]

pub mod board;
mod procedure;
pub mod rank_table;
mod ranks;
pub mod rows;
mod soundness;
pub mod tables;
pub mod turned;
