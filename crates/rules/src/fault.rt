// Why the book refuses a call.
ghost use Rattle.std.specs.Prelude.{◌≡◌};
ghost use Rattle.rules.specs.declared.fault.BookFault.TheVariants.{Own};
ghost use Rattle.rules.specs.Faults.{refusal};

use base::{Layer, Refusal};
use orders::fault::OwnFault;

#[derive(Clone, Copy, PartialEq, Eq, Debug)]
pub enum BookFault {
    HouseOutOfRange,
    // Out of range, or not above the highest.
    FolioNotNext,
    // Out of range, or not all of it left.
    VolumeOutOfRange,
    // A question of the kind of order.
    Own(OwnFault),
    BookFull,
    TapeTooShort,
    UnknownFolio,
    OtherHouse,
    PriceOutOfRange,
    NoPriceInForce,
    ListTooShort,
}

impl From<OwnFault> for BookFault {
    ghost from_gives = { λ own fault. fault ≡ Own own };

    fn from(own: OwnFault) -> BookFault {
        BookFault::Own(own)
    }
}

impl From<BookFault> for Refusal {
    ghost from_gives = { λ fault told. told ≡ refusal fault };

    fn from(fault: BookFault) -> Refusal {
        let number = match fault {
            BookFault::HouseOutOfRange => 1,
            BookFault::FolioNotNext => 2,
            BookFault::VolumeOutOfRange => 3,
            BookFault::Own(own) => own.number(),
            BookFault::BookFull => 6,
            BookFault::TapeTooShort => 7,
            BookFault::UnknownFolio => 8,
            BookFault::OtherHouse => 9,
            BookFault::PriceOutOfRange => 10,
            BookFault::NoPriceInForce => 11,
            BookFault::ListTooShort => 12,
        };
        Refusal {
            number,
            layer: Layer::Book,
            place: 0,
        }
    }
}
