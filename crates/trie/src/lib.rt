#![tactic(auto)]

mod edit;
mod nodes;
mod tree;
pub mod tries;
mod walk;
