#![tactic(auto)]

pub mod direct;
pub mod engine;
mod pairs;
pub mod rows;
pub mod scan;
mod searches;
mod used;
