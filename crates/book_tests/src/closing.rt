// Closing orders for the examples.
use base::Side;
use kinds::closing::{ClosingOrder, Quantity};
use orders::trade::{Header, Party};

pub(crate) fn order(
    side: Side,
    house: u32,
    folio: u32,
    volume: u32,
    quantity: Quantity,
) -> ClosingOrder {
    ClosingOrder {
        header: Header {
            side,
            party: Party { house, folio },
            entered: volume,
            left: volume,
        },
        quantity,
    }
}
