// The plants of one circuit: cable and segment. Neither misses anything.
#![tactic(auto)]

pub mod cable;
mod inbox;
pub mod segment;
pub mod wire;
