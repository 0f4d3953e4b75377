// A midpoint book driven by lines of orders and quotes: quotes come as messages in hexadecimal, and the price in force
// comes from them alone.
#![tactic(auto)]

pub mod apply;
mod digits;
pub mod reading;
