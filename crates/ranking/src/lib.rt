//! Rankings of streams and lanes: the interface, pairings, and the finder of what makes one unstable.
#![tactic(auto)]

pub mod figures;
pub mod finder;
pub mod interface;
pub mod listing;
pub mod pairing;
pub mod scorer;
