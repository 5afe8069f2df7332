// Stores tried by running: full stores, clearing in another order, one script on five makes of store, and their sizes.
#![tactic(auto)]

#[cfg(test)]
mod fills;
#[cfg(test)]
mod scripts;
#[cfg(test)]
mod sizes;
