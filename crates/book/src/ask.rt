// The questions before each call, in their order.
ghost use Rattle.std.specs.Prelude.{◌≡◌, ◌&&◌, IfOk, Some, ◌==◌};
ghost use Rattle.orders.specs.Limits.{volume_in_range};
ghost use Rattle.rules.specs.Calls.{TakesOut};
ghost use Rattle.rules.specs.Questions.{capacity_of, cancel_questions, questions, party_questions};
ghost use Rattle.rules.specs.declared.call.Call.TheVariants.{Enter, Cancel, Price, Cross};
ghost use Rattle.book.specs.Asked.{Asked};
ghost use Rattle.book.specs.View.{places, view};

use crate::open::{CAPACITY, OpenBook};
use crate::table::find_folio;
use base::is_price;
use orders::limits::{is_folio, is_house, is_volume};
use orders::order::Order;
use orders::priority::Priority;
use orders::trade::{Header, Party};
use rules::fault::BookFault;

// In range, and all of it left?
fn is_whole(header: &Header) -> bool
    ensures { result ≡ (volume_in_range header.now.entered && header.now.left == header.now.entered) }
{
    is_volume(header.entered) && header.left == header.entered
}

// The questions of a call that can make fills also ask of `room`, the number of places that the lent tape has.
impl<'a, O: Order, P: Priority> OpenBook<'a, O, P> {
    // How many orders may rest.
    fn capacity(&self) -> usize
        ensures { result ≡ capacity_of (places self.now) }
    {
        self.table.len().min(CAPACITY)
    }

    // The house and the folio of an entry or a cross.
    fn ask_party(&self, party: Party) -> Result<(), BookFault>
        ensures { Asked (party_questions party self.now.highest) result }
    {
        if !is_house(party.house) {
            return Err(BookFault::HouseOutOfRange);
        }
        if !is_folio(party.folio) || party.folio <= self.highest {
            return Err(BookFault::FolioNotNext);
        }
        Ok(())
    }

    // The house, the folio and the volume of an entry, the kind's own questions, and whether the book and the tape
    // have room.
    pub(crate) fn ask_entry(&self, order: &O, room: usize) -> Result<(), BookFault>
        ensures { Asked (questions O.kind (capacity_of (places self.now)) (view self.now) room (Enter order.now)) result }
    {
        let header = order.header();
        self.ask_party(header.party)?;
        if !is_whole(&header) {
            return Err(BookFault::VolumeOutOfRange);
        }
        order.ask_own()?;
        if self.capacity() <= self.resting {
            return Err(BookFault::BookFull);
        }
        if room < self.resting {
            return Err(BookFault::TapeTooShort);
        }
        Ok(())
    }

    // A cancel; where it may be made, the volume that the order has left.
    pub(crate) fn ask_cancel(&self, party: Party) -> Result<u32, BookFault>
        ensures asked { Asked (cancel_questions O.kind (view self.now) party) result }
        ensures taken { IfOk result (TakesOut O.kind (view self.now) (Cancel party)) }
    {
        let header = find_folio(&self.table[..self.resting], party.folio).ok_or(
            BookFault::UnknownFolio,
        )?;
        if header.party.house != party.house {
            return Err(BookFault::OtherHouse);
        }
        Ok(header.left)
    }

    // A cross; where it may be made, the price in force.
    pub(crate) fn ask_cross(&self, party: Party, volume: u32, room: usize) -> Result<u32, BookFault>
        ensures asked { Asked (questions O.kind (capacity_of (places self.now)) (view self.now) room (Cross party volume)) result }
        ensures made { IfOk result (λ p. self.now.price ≡ Some p) }
    {
        self.ask_party(party)?;
        if !is_volume(volume) {
            return Err(BookFault::VolumeOutOfRange);
        }
        let price = self.price.ok_or(BookFault::NoPriceInForce)?;
        if room < 1 {
            return Err(BookFault::TapeTooShort);
        }
        Ok(price)
    }

    // A price to be put in force, or none.
    pub(crate) fn ask_price(&self, price: Option<u32>, room: usize) -> Result<(), BookFault>
        ensures { Asked (questions O.kind (capacity_of (places self.now)) (view self.now) room (Price price)) result }
    {
        let Some(price) = price else {
            return Ok(());
        };
        if !is_price(price) {
            return Err(BookFault::PriceOutOfRange);
        }
        if room < self.resting.saturating_sub(1) {
            return Err(BookFault::TapeTooShort);
        }
        Ok(())
    }
}
