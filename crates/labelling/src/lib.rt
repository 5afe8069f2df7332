#![tactic(auto)]

pub mod board;
pub mod entered;
pub mod found;
pub mod told;
