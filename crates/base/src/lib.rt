// What every layer of the service shares: the two sides of a trade, prices, and what a refusal tells.
#![tactic(auto)]

ghost use Rattle.std.specs.Prelude.{◌≡◌};
ghost use Rattle.base.specs.Letters.{NamedBy};
ghost use Rattle.base.specs.Price.{price_in_range};

// A purchase or a sale.
#[derive(Clone, Copy, PartialEq, Eq, Debug, Default)]
pub enum Side {
    #[default]
    Buy,
    Sell,
}

// A letter that names no side.
#[derive(Clone, Copy, PartialEq, Eq, Debug)]
pub struct UnknownSide;

// The side that a letter of a message or a line names.
impl TryFrom<u8> for Side {
    type Error = UnknownSide;

    ghost try_from_gives = { NamedBy };

    fn try_from(letter: u8) -> Result<Side, UnknownSide> {
        match letter as char {
            'C' => Ok(Side::Buy),
            'V' => Ok(Side::Sell),
            _ => Err(UnknownSide),
        }
    }
}

const HIGHEST_PRICE: u32 = 100_000_000;

// Is it a price, in ten-thousandths of a peso?
pub fn is_price(price: u32) -> bool
    ensures { result ≡ price_in_range price }
{
    (1..=HIGHEST_PRICE).contains(&price)
}

// The part of the service that refuses.
#[derive(Clone, Copy, PartialEq, Eq, Debug)]
pub enum Layer {
    Book,
    Message,
    Block,
    Quotes,
    Line,
}

// What every refusal tells: its number, the layer that refused, and the place in that layer's input.
#[derive(Clone, Copy, PartialEq, Eq, Debug)]
pub struct Refusal {
    pub number: u32,
    pub layer: Layer,
    pub place: u64,
}
