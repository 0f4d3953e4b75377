// The two entries that a fill has in a block, and what is asked of each.
ghost use Rattle.std.specs.Prelude.{◌≡◌, ◌<◌, ◌≤◌, List};
ghost use Rattle.std.specs.Iterator.{AlwaysYields, UpTo};
ghost use Rattle.orders.specs.declared.trade.Fill.{Fill};
ghost use Rattle.tape.specs.Asked.{party_in_range};
ghost use Rattle.tape.specs.Entries.{admits, entry_fault, judged};

use crate::fault::BlockFault;
use crate::shape::Shape;
use base::is_price;
use orders::limits::{is_folio, is_house, is_volume};
use orders::trade::{Fill, Party};

// Who traded, or what was traded. An enum and no closures: each of the two answers several questions that belong together.
#[derive(Clone, Copy)]
pub(crate) enum Entry {
    Who,
    What,
}

fn is_party(party: Party) -> bool
    ensures { result ≡ party_in_range party }
{
    is_folio(party.folio) && is_house(party.house)
}

impl Entry {
    // Is this entry of the fill in range?
    fn admits(self, fill: &Fill) -> bool
        ensures { result ≡ admits self fill.now }
    {
        match self {
            Entry::Who => is_party(fill.buyer) && is_party(fill.seller),
            Entry::What => is_volume(fill.volume) && is_price(fill.price),
        }
    }

    // The fault where this entry of the fill of that place is out of range.
    fn fault(self, shape: Shape, place: usize) -> BlockFault
        requires { place < shape.count }
        ensures { result ≡ entry_fault self shape.count place }
    {
        match self {
            Entry::Who => BlockFault::WhoOutOfRange {
                offset: shape.who_at(place) as u64,
            },
            Entry::What => BlockFault::WhatOutOfRange {
                offset: shape.what_at(place) as u64,
            },
        }
    }

    // Is this entry of every fill in range? The fault is that of the first of which it is not.
    pub(crate) fn judge<I: Iterator<Item = Fill> + Drop>(
        self,
        shape: Shape,
        mut fills: I,
    ) -> Result<(), BlockFault>
        requires can { I.can_next fills }
        requires few { UpTo (I.remaining fills) shape.count }
        ensures { (fs : List Fill) → AlwaysYields I.next_gives (λ f. f) fills fs → result ≡ judged self fs shape.count }
    {
        match fills.position(|fill| !self.admits(&fill)) {
            Some(place) => Err(self.fault(shape, place)),
            None => Ok(()),
        }
    }
}
