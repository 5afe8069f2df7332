#![tactic(auto)]

pub mod calls;
pub mod filter;
pub mod rows;
