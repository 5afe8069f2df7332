#![tactic(auto)]

pub mod filter_labels;
