// Orders at the closing price: one is filled in parts, or all at once.
ghost use Rattle.kinds.specs.Closing.{closing_kind};

use crate::reduction::reduced_header;
use orders::fault::OwnFault;
use orders::order::Order;
use orders::trade::Header;

#[derive(Clone, Copy, PartialEq, Eq, Debug, Default)]
pub enum Quantity {
    // Any volume.
    #[default]
    Partial,
    // Only all that is left.
    AllOrNone,
}

#[derive(Clone, Copy, PartialEq, Eq, Debug, Default)]
pub struct ClosingOrder {
    pub header: Header,
    pub quantity: Quantity,
}

impl Order for ClosingOrder {
    ghost kind = { closing_kind };

    fn header(&self) -> Header {
        self.header
    }

    // The kind has no questions of its own.
    fn ask_own(&self) -> Result<(), OwnFault> {
        Ok(())
    }

    fn takes(&self, volume: u32, _price: u32) -> bool {
        match self.quantity {
            Quantity::Partial => true,
            Quantity::AllOrNone => volume == self.header.left,
        }
    }

    fn reduced(&self, volume: u32) -> ClosingOrder {
        ClosingOrder {
            header: reduced_header(self.header, volume),
            ..*self
        }
    }
}
