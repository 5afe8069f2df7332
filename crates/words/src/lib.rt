#![tactic(auto)]

pub mod cuts;
pub mod decimals;
pub mod hexadecimals;
pub mod values;
