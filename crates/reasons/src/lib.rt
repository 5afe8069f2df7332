#![tactic(auto)]

pub mod sides;
pub mod why;
