// Why the quotes refuse a message: by a fault of the message itself, or of the book that was to take its midpoint.
ghost use Rattle.std.specs.Prelude.{◌≡◌};
ghost use Rattle.feed.specs.Faults.{refusal};
ghost use Rattle.feed.specs.declared.fault.QuoteFault.TheVariants.{Message, Book};

use base::{Layer, Refusal};
use quotes::fault::MessageFault;
use rules::fault::BookFault;

// An enum of its own and no `Result`: both are faults, and each is passed on whole.
#[derive(Clone, Copy, PartialEq, Eq, Debug)]
pub enum QuoteFault {
    Message(MessageFault),
    Book(BookFault),
}

impl From<MessageFault> for QuoteFault {
    ghost from_gives = { λ inside fault. fault ≡ Message inside };

    fn from(inside: MessageFault) -> QuoteFault {
        QuoteFault::Message(inside)
    }
}

impl From<BookFault> for QuoteFault {
    ghost from_gives = { λ inside fault. fault ≡ Book inside };

    fn from(inside: BookFault) -> QuoteFault {
        QuoteFault::Book(inside)
    }
}

// The number of the fault inside is passed on; the layer is the quotes', at place 0. No twin of the other layers': a table of its own enum.
impl From<QuoteFault> for Refusal {
    ghost from_gives = { λ fault told. told ≡ refusal fault };

    fn from(fault: QuoteFault) -> Refusal {
        let inside = match fault {
            QuoteFault::Message(inside) => Refusal::from(inside),
            QuoteFault::Book(inside) => Refusal::from(inside),
        };
        Refusal {
            layer: Layer::Quotes,
            place: 0,
            ..inside
        }
    }
}
