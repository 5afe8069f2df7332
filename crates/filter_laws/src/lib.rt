#![tactic(auto)]

pub mod replays;
pub mod sample;
