// Quotes that drive a book: each accepted message puts its midpoint in force by one price call.
#![tactic(auto)]

pub mod call;
pub mod fault;
