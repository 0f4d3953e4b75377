// Matching: the first pair of resting orders that can trade, and the sweep that fills pairs until none can.
// Written once for every kind of order and every priority.
#![tactic(auto)]

pub mod closing_up;
pub mod search;
pub mod sweep;
