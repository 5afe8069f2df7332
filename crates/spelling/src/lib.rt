#![tactic(auto)]

pub mod numbers;
pub mod rows;
pub mod spelled;
