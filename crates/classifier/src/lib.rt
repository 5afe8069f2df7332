#![tactic(auto)]

pub mod classifier;
pub mod sorter;
