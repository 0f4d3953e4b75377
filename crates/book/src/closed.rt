// The closed book: it takes no call, tells what is left, and gives its table back.
ghost use Rattle.std.specs.Prelude.{◌≡◌, ◌≤◌, length};

use crate::table::write_unfilled;
use orders::order::Order;
use rules::fault::BookFault;

// The folio of an order that was not filled to the end, and the volume that it has left.
#[derive(Clone, Copy, PartialEq, Eq, Debug, Default)]
pub struct Unfilled {
    pub folio: u32,
    pub left: u32,
}

// Two fields are the open book's too: a struct of both would be no plainer, and every contract's path to them longer.
pub struct ClosedBook<'a, O> {
    // The lent table and how many of its orders rest: a form of this project (no heap; the table is given back whole).
    pub(crate) table: &'a mut [O],
    pub(crate) resting: usize,
    // The first orders of the table rest.
    ghost fits: { resting ≤ length table.now },
}

impl<'a, O: Order> ClosedBook<'a, O> {
    ghost use Rattle.book.specs.Closed.{Listed, resting_orders};

    // Writes the orders that are left, in rising folio, at the list's front, and answers their number.
    pub fn unfilled(&self, list: &mut [Unfilled]) -> Result<usize, BookFault>
        ensures { Listed O.kind (resting_orders self.now) list.old list.new result }
    {
        if list.len() < self.resting {
            return Err(BookFault::ListTooShort);
        }
        write_unfilled(&self.table[..self.resting], list);
        Ok(self.resting)
    }

    // Gives the table back.
    pub fn end(self) -> &'a mut [O]
        ensures table { result.now ≡ self.entry.table.now }
        ensures lent { result.ghost_name ≡ self.entry.table.ghost_name }
    {
        let ClosedBook { table, resting: _ } = self;
        table
    }
}
