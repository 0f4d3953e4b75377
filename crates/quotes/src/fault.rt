// Why a message is refused.
ghost use Rattle.std.specs.Prelude.{◌≡◌};
ghost use Rattle.quotes.specs.Faults.{refusal};

use base::{Layer, Refusal};

#[derive(Clone, Copy, PartialEq, Eq, Debug)]
pub enum MessageFault {
    TooShort,
    NotLastQuote,
    OtherInstrument,
    UnknownOrigin,
    UnknownSide,
    NegativeVolume,
    OffTick,
}

// The refusal's number, and the offset of the field that it is about.
// A table of its own enum: with those of the other faults it shares only the making of a `Refusal`.
impl From<MessageFault> for Refusal {
    ghost from_gives = { λ fault result. result ≡ refusal fault };

    fn from(fault: MessageFault) -> Refusal {
        let (number, place) = match fault {
            MessageFault::TooShort => (13, 0),
            MessageFault::NotLastQuote => (14, 0),
            MessageFault::OtherInstrument => (15, 1),
            MessageFault::UnknownOrigin => (16, 5),
            MessageFault::UnknownSide => (17, 22),
            MessageFault::NegativeVolume => (18, 6),
            MessageFault::OffTick => (19, 14),
        };
        Refusal {
            number,
            layer: Layer::Message,
            place,
        }
    }
}
