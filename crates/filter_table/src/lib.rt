#![tactic(auto)]

pub mod lists;
pub mod shifts;
pub mod table;
