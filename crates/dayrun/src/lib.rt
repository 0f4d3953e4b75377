// A whole day of a midpoint book over lines of text: read, answer, close, list what is left. What a line does to the
// book is asked of a desk, so that programs which differ only in that share all the rest.
#![tactic(auto)]

pub mod desk;
mod output;
pub mod run;
