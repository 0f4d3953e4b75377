// Examples for the crate `quotes`, in a crate of their own so that they are not proved again with each of its edits.
#![tactic(auto)]

#[cfg(test)]
mod tests;
