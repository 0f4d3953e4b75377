// Why a block is not read or not written.
ghost use Rattle.std.specs.Prelude.{◌≡◌};
ghost use Rattle.tape.specs.Faults.{refusal};

use base::{Layer, Refusal};

#[derive(Clone, Copy, PartialEq, Eq, Debug)]
pub enum BlockFault {
    TooShort,
    TooManyFills,
    WrongLength,
    // Each at the offset of the first entry that is out of range.
    WhoOutOfRange { offset: u64 },
    WhatOutOfRange { offset: u64 },
    ListTooShort,
    BufferTooShort,
}

// The refusal's number, and the place in the block that it is about.
// A table of this enum alone: with other layers' tables it shares only the making of a `Refusal`, so one for all is no plainer.
impl From<BlockFault> for Refusal {
    ghost from_gives = { λ f r. r ≡ refusal f };

    fn from(fault: BlockFault) -> Refusal {
        let (number, place) = match fault {
            BlockFault::TooShort => (20, 0),
            BlockFault::TooManyFills => (21, 0),
            BlockFault::WrongLength => (22, 4),
            BlockFault::WhoOutOfRange { offset } => (23, offset),
            BlockFault::WhatOutOfRange { offset } => (24, offset),
            BlockFault::ListTooShort => (25, 0),
            BlockFault::BufferTooShort => (26, 0),
        };
        Refusal {
            number,
            layer: Layer::Block,
            place,
        }
    }
}
