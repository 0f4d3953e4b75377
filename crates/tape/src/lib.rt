// Tape blocks: a list of fills as one block of bytes, and back.
#![tactic(auto)]

mod entry;
pub mod fault;
pub mod forms;
pub mod reading;
pub mod shape;
pub mod writing;
