// Midpoint orders: one takes its minimum or more, at a price within its protection.
ghost use Rattle.std.specs.Prelude.{◌≡◌};
ghost use Rattle.kinds.specs.Midpoint.{within_protection, midpoint_kind};

use crate::reduction::reduced_header;
use base::{Side, is_price};
use orders::fault::OwnFault;
use orders::order::Order;
use orders::trade::Header;

const LOWEST_MINIMUM: u32 = 1;

#[derive(Clone, Copy, PartialEq, Eq, Debug, Default)]
pub struct MidpointOrder {
    pub header: Header,
    // The highest price of a buy, the lowest of a sell.
    pub protection: u32,
    // The smallest volume that it trades at once.
    pub minimum: u32,
}

// Is the price no worse than the protection?
fn within_protection(side: Side, protection: u32, price: u32) -> bool
    ensures { result ≡ within_protection side protection price }
{
    match side {
        Side::Buy => price <= protection,
        Side::Sell => protection <= price,
    }
}

impl Order for MidpointOrder {
    ghost kind = { midpoint_kind };

    fn header(&self) -> Header {
        self.header
    }

    fn ask_own(&self) -> Result<(), OwnFault> {
        if !is_price(self.protection) {
            return Err(OwnFault::BadProtection);
        }
        // The volume entered, since the minimum was given with it.
        if !(LOWEST_MINIMUM..=self.header.entered).contains(&self.minimum) {
            return Err(OwnFault::BadMinimum);
        }
        Ok(())
    }

    fn takes(&self, volume: u32, price: u32) -> bool {
        volume >= self.minimum && within_protection(self.header.side, self.protection, price)
    }

    fn reduced(&self, volume: u32) -> MidpointOrder {
        MidpointOrder {
            header: reduced_header(self.header, volume),
            ..*self
        }
    }
}
