// The book: one security, one day. Open it takes calls; closed it tells what is left.
#![tactic(auto)]

mod ask;
pub mod closed;
pub mod day;
pub mod open;
mod table;
