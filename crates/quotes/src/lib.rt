// Quotes of the two exchanges: the Last Quote message, ticks, the board of four quotes, the midpoint.
#![tactic(auto)]

pub mod answer;
pub mod board;
pub mod fault;
pub mod message;
pub mod ticks;
