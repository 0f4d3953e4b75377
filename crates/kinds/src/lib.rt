// Two kinds of order, and two priorities.
#![tactic(auto)]

pub mod closing;
pub mod midpoint;
pub mod priorities;
mod reduction;
#[cfg(test)]
mod tests;
