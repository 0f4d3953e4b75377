// Why a kind of order refuses an order: its own questions.
ghost use Rattle.std.specs.Prelude.{◌≡◌, true};
ghost use Rattle.orders.specs.Names.{is_unnamed};

// A question without a name, by its number, which is that of no question with one.
#[derive(Clone, Copy, PartialEq, Eq, Debug)]
pub struct OtherQuestion {
    number: u32,
    ghost unnamed: { is_unnamed number ≡ true },
}

// The question of the kind's own that was answered no. A fault and its number determine one another.
#[derive(Clone, Copy, PartialEq, Eq, Debug)]
pub enum OwnFault {
    // The protection is no price.
    BadProtection,
    // The minimum is none, or more than was entered.
    BadMinimum,
    // A question that only that kind asks: kinds are open.
    Other(OtherQuestion),
}

// The one fault of that number.
impl From<u32> for OwnFault {
    ghost use Rattle.orders.specs.Own.{OnlyOne};

    ghost from_gives = { OnlyOne };

    fn from(number: u32) -> OwnFault {
        match number {
            4 => OwnFault::BadProtection,
            5 => OwnFault::BadMinimum,
            _ => OwnFault::Other(OtherQuestion { number }),
        }
    }
}

impl OwnFault {
    ghost use Rattle.orders.specs.Own.{own_number};

    // The number of the question that was answered no.
    pub fn number(self) -> u32
        ensures { result ≡ own_number self }
    {
        match self {
            OwnFault::BadProtection => 4,
            OwnFault::BadMinimum => 5,
            OwnFault::Other(question) => question.number,
        }
    }
}
