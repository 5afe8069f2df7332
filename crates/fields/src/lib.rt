#![tactic(auto)]

pub mod faults;
pub mod flags;
pub mod keys;
pub mod kinds;
pub mod orders;
pub mod prefixes;
pub mod protocols;
pub mod ranges;
