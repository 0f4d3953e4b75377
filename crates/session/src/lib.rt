// A midpoint book driven by lines of text: the lines are cut from a stream of bytes, read, and applied to the book.
#![tactic(auto)]

pub mod apply;
pub mod buffer;
