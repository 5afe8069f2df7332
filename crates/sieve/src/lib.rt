#![tactic(auto)]

pub mod counters;
pub mod sieve_store;
