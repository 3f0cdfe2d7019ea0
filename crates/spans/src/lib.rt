// The plants over other plants: pair and fader.
#![tactic(auto)]

pub mod fader;
pub mod pair;
