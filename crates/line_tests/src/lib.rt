// Lines of the console: which are read, which are refused, and how answers are written.
#![tactic(auto)]

#[cfg(test)]
mod reading;
#[cfg(test)]
mod writing;
