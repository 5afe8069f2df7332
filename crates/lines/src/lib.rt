#![tactic(auto)]

pub mod calls;
