#![tactic(auto)]

pub mod checks;
pub mod marks;
pub mod told;
