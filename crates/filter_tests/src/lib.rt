#![tactic(auto)]

#[cfg(test)]
mod refusals;
