// Whole days of calls, and messages fed to a book, as examples, in a crate of their own so that they are not proved again
// with each edit of the book.
#![tactic(auto)]

#[cfg(test)]
mod closing;
#[cfg(test)]
mod feed_tests;
#[cfg(test)]
mod tests;
