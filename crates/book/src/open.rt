// The open book, over a table that is lent to it.
ghost use Rattle.std.specs.Prelude.{◌≡◌, ◌≤◌, length};

use crate::closed::ClosedBook;
use crate::table::remove_folio;
use matching::sweep::sweep;
use orders::order::Order;
use orders::priority::Priority;
use orders::trade::{Fill, Party};
use rules::call::{Answer, Call};
use rules::fault::BookFault;
use std::marker::PhantomData;

// A book has at most this many places, however many its table has.
pub const CAPACITY: usize = 512;

// Its one priority is a parameter of its type, so every call on it uses the same.
pub struct OpenBook<'a, O, P> {
    // The lent table and how many of its orders rest: a form of this project (no heap; the table is given back whole).
    pub(crate) table: &'a mut [O],
    pub(crate) resting: usize,
    pub(crate) price: Option<u32>,
    pub(crate) highest: u32,
    priority: PhantomData<P>,
    // The first orders of the table rest.
    ghost fits: { resting ≤ length table.now },
}

// `called`, `tape` and `table` relate the book before and after a call, as no invariant can; one name for them fits 3 of 5.
impl<'a, O: Order, P: Priority> OpenBook<'a, O, P> {
    ghost use Rattle.std.specs.Prelude.{ℕ, ◌-◌, [], OnSome, OnErr};
    ghost use Rattle.rules.specs.declared.call.Call.TheVariants.{Enter, Cancel, Price, Cross};
    ghost use Rattle.rules.specs.Day.{Day, new_state};
    ghost use Rattle.book.specs.Called.{Called, FillsAtFront, TapeAfter, cancel_outcome, fills_outcome, outcome};
    ghost use Rattle.book.specs.Closed.{resting_orders};
    ghost use Rattle.book.specs.Holding.{GoesOn, Holds, event};
    ghost use Rattle.book.specs.Swept.{SweptBook};
    ghost use Rattle.book.specs.View.{view, places, Free, SameTable};

    // A new book over the table: nothing rests, no price is in force, and the highest folio is 0.
    pub fn new(table: &'a mut [O]) -> OpenBook<'a, O, P>
        ensures state { view result ≡ new_state }
        ensures day { Holds O.kind result [] }
        ensures long { places result ≡ length table.old }
        ensures free { Free result.table.now result.resting (length table.old) }
        ensures lent { result.table.ghost_name ≡ table.entry.ghost_name }
    {
        OpenBook {
            table,
            resting: 0,
            price: None,
            highest: 0,
            priority: PhantomData,
        }
    }

    // Sweeps at the price, if there is one; the caller has asked whether the tape has room for all fills. Answers how many
    // that made.
    fn sweep(&mut self, price: Option<u32>, tape: &mut [Fill]) -> usize
        requires { OnSome price (self.old.resting - 1 ≤ length tape.old) }
        ensures { SweptBook O.kind P.ranking price self.old tape.old self.new tape.new result }
    {
        let Some(price) = price else {
            return 0;
        };
        let swept = sweep::<O, P>(self.table, self.resting, price, tape).unwrap();
        self.resting = swept.resting;
        swept.fills
    }

    // Adds the order and sweeps at the price in force. Answers how many fills that made.
    pub fn enter(&mut self, order: O, tape: &mut [Fill]) -> Result<usize, BookFault>
        ensures called { Called O.kind P.ranking self.old (Enter order) (length tape.old) (fills_outcome result tape.new) self.new }
        ensures tape { FillsAtFront result tape.old tape.new }
        ensures table { SameTable self.old self.new }
        ensures refused { OnErr result (self.new ≡ self.old) }
    {
        self.ask_entry(&order, tape.len())?;
        self.highest = order.header().party.folio;
        self.table[self.resting] = order;
        self.resting += 1;
        Ok(self.sweep(self.price, tape))
    }

    // Takes the house's order with the folio out. Answers the volume that it had left.
    pub fn cancel(&mut self, party: Party) -> Result<u32, BookFault>
        ensures called { (tape : ℕ) → Called O.kind P.ranking self.old (Cancel party) tape (cancel_outcome result) self.new }
        ensures table { SameTable self.old self.new }
        ensures refused { OnErr result (self.new ≡ self.old) }
    {
        let left = self.ask_cancel(party)?;
        self.resting = remove_folio(&mut self.table[..self.resting], party.folio);
        Ok(left)
    }

    // Puts a price in force, or none, and sweeps at it. Answers how many fills that made.
    pub fn set_price(&mut self, price: Option<u32>, tape: &mut [Fill]) -> Result<usize, BookFault>
        ensures called { Called O.kind P.ranking self.old (Price price) (length tape.old) (fills_outcome result tape.new) self.new }
        ensures tape { FillsAtFront result tape.old tape.new }
        ensures table { SameTable self.old self.new }
        ensures refused { OnErr result (self.new ≡ self.old) }
    {
        self.ask_price(price, tape.len())?;
        let fills = self.sweep(price, tape);
        self.price = price;
        Ok(fills)
    }

    // Trades a volume within one house at the price in force; no order takes part. Answers its one fill.
    pub fn cross(
        &mut self,
        party: Party,
        volume: u32,
        tape: &mut [Fill],
    ) -> Result<usize, BookFault>
        ensures called { Called O.kind P.ranking self.old (Cross party volume) (length tape.old) (fills_outcome result tape.new) self.new }
        ensures tape { FillsAtFront result tape.old tape.new }
        ensures table { SameTable self.old self.new }
        ensures refused { OnErr result (self.new ≡ self.old) }
    {
        let price = self.ask_cross(party, volume, tape.len())?;
        tape[0] = Fill {
            price,
            volume,
            buyer: party,
            seller: party,
        };
        self.highest = party.folio;
        Ok(1)
    }

    // Makes a call, whichever it is. For every lawful day that the book holds, the day goes on by this call: it stays
    // lawful, the book holds it, and every promise is kept throughout it.
    #[tactic(auto, using(crate::proofs::Days::goes_on))]
    pub fn apply(&mut self, call: Call<O>, tape: &mut [Fill]) -> Result<Answer, BookFault>
        ensures called { Called O.kind P.ranking self.old call (length tape.old) (outcome result tape.new) self.new }
        ensures tape { TapeAfter result tape.old tape.new }
        ensures table { SameTable self.old self.new }
        ensures refused { OnErr result (self.new ≡ self.old) }
        ensures day { (day : Day O) → Holds O.kind self.old day → GoesOn O.kind self.new (event P.ranking call (length tape.old) (outcome result tape.new)) day }
    {
        match call {
            Call::Enter(order) => self.enter(order, tape).map(Answer::Filled),
            Call::Cancel(party) => self.cancel(party).map(Answer::Cancelled),
            Call::Price(price) => self.set_price(price, tape).map(Answer::Filled),
            Call::Cross { party, volume } => self.cross(party, volume, tape).map(Answer::Filled),
        }
    }

    // Ends trading. No fill is made.
    pub fn close(self) -> ClosedBook<'a, O>
        ensures resting { resting_orders result ≡ (view self.entry).resting }
        ensures long { length result.table.now ≡ places self.entry }
        ensures free { Free result.table.now result.resting (places self.entry) }
        ensures lent { result.table.ghost_name ≡ self.entry.table.ghost_name }
    {
        let OpenBook {
            table,
            resting,
            price: _,
            highest: _,
            priority: _,
        } = self;
        ClosedBook { table, resting }
    }
}
