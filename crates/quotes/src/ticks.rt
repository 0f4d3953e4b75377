// Ticks: the prices at which a security may be quoted.
ghost use Rattle.std.specs.Prelude.{◌≡◌, ◌<◌};
ghost use Rattle.quotes.specs.Ticks.{on_tick, steps_to, Names};

use std::str::FromStr;

#[derive(Clone, Copy, PartialEq, Eq, Debug)]
pub enum SecurityType {
    Equity,
    Sic,
    Warrant,
    FixedIncome,
}

// A word that names no type of security.
#[derive(Clone, Copy, PartialEq, Eq, Debug)]
pub struct UnknownType;

// The type that a program's argument names.
impl FromStr for SecurityType {
    type Err = UnknownType;

    ghost from_str_gives = { Names };

    fn from_str(word: &str) -> Result<SecurityType, UnknownType> {
        match word {
            "equity" => Ok(SecurityType::Equity),
            "sic" => Ok(SecurityType::Sic),
            "warrant" => Ok(SecurityType::Warrant),
            "fixed" => Ok(SecurityType::FixedIncome),
            _ => Err(UnknownType),
        }
    }
}

// The prices from `lowest` to `highest`, by `step`, of one type of security.
#[derive(Clone, Copy)]
struct TickRow {
    security: SecurityType,
    lowest: u32,
    highest: u32,
    step: u32,
    ghost steps: { 0 < step },
}

#[rattlefmt::skip]
const TICKS: [TickRow; 5] = [
    TickRow { security: SecurityType::Equity,      lowest: 10,     highest: 10_000,      step: 10 },
    TickRow { security: SecurityType::Equity,      lowest: 10_100, highest: 100_000_000, step: 100 },
    TickRow { security: SecurityType::Sic,         lowest: 100,    highest: 100_000_000, step: 100 },
    TickRow { security: SecurityType::Warrant,     lowest: 100,    highest: 100_000_000, step: 100 },
    TickRow { security: SecurityType::FixedIncome, lowest: 1_000,  highest: 100_000_000, step: 1_000 },
];

impl TickRow {
    // Is the price on this row?
    fn has(&self, price: u32) -> bool
        ensures { result ≡ steps_to self.now.lowest self.now.highest self.now.step price }
    {
        (self.lowest..=self.highest).contains(&price) && (price - self.lowest) % self.step == 0
    }
}

// Is the price a tick of its type of security?
pub fn is_on_tick(security: SecurityType, price: u32) -> bool
    ensures { result ≡ on_tick security price }
{
    TICKS
        .iter()
        .any(|row| row.security == security && row.has(price))
}
