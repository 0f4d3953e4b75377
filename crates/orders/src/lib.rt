// Orders as the book sees them: what every order shows, what a kind of order must answer, and what ranks orders.
#![tactic(auto)]

pub mod fault;
pub mod limits;
pub mod order;
pub mod priority;
pub mod trade;
