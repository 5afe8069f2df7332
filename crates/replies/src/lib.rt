#![tactic(auto)]

pub mod answers;
