// What an order shows of itself, and what a fill records.
use base::Side;

// The house and the folio on one side of a trade.
#[derive(Clone, Copy, PartialEq, Eq, Debug, Default)]
pub struct Party {
    pub house: u32,
    pub folio: u32,
}

// What every order shows, whatever its kind.
#[derive(Clone, Copy, PartialEq, Eq, Debug, Default)]
pub struct Header {
    pub side: Side,
    pub party: Party,
    pub entered: u32,
    pub left: u32,
}

// One trade between a buyer and a seller.
#[derive(Clone, Copy, PartialEq, Eq, Debug, Default)]
pub struct Fill {
    pub price: u32,
    pub volume: u32,
    pub buyer: Party,
    pub seller: Party,
}
