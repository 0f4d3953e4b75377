// The text lines of a day: the calls that are read, the lines that are written, and why a line is refused.
#![tactic(auto)]

pub mod fault;
mod numbers;
pub mod output;
pub mod reading;
#[cfg(test)]
mod tests;
