// What can be asked of an open book, and what it answers.
use orders::trade::Party;

#[derive(Clone, Copy, PartialEq, Eq, Debug)]
pub enum Call<O> {
    // Adds the order to the book.
    Enter(O),
    // Takes out the house's order with the folio.
    Cancel(Party),
    // Puts a price in force, or none.
    Price(Option<u32>),
    // Trades a volume within one house, under one folio on both sides.
    Cross { party: Party, volume: u32 },
}

#[derive(Clone, Copy, PartialEq, Eq, Debug)]
pub enum Answer {
    // How many fills the call made; they stand at the tape's front.
    Filled(usize),
    // The volume that the cancelled order had left.
    Cancelled(u32),
}
