// The rules of the book: its calls, the questions before each, and the promises over whole days of calls.
#![tactic(auto)]

pub mod call;
pub mod fault;
