#![tactic(auto)]

pub mod asking;
pub mod calls;
pub mod columns;
pub mod serving;
