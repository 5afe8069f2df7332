#![tactic(auto)]

pub mod chain_store;
mod chains;
pub mod grid;
pub mod index;
pub mod indexed;
pub mod pairs;
pub mod store;
