#![tactic(auto)]

mod asks;
pub mod network;
pub mod search;
pub mod searched;
