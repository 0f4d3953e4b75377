// The board: the four quotes of one instrument, and the midpoint between the best of them.
ghost use Rattle.std.specs.Prelude.{◌≡◌, true, IfSome};
ghost use Rattle.quotes.specs.declared.ticks.SecurityType.{SecurityType};
ghost use Rattle.quotes.specs.Board.{no_quotes, standing, laid, highest_bid, lowest_offer, midpoint, ticked, all_ticked, Exact};

use crate::fault::MessageFault;
use crate::message::{Origin, QuoteUpdate, read_message};
use crate::ticks::SecurityType;
use base::Side;

// The four quotes as an array of rows: a row for each origin, in it the bid and the offer.
// Every quote that stands is on its security's tick.
#[derive(Clone, Copy, PartialEq, Eq, Debug)]
pub struct Quotes {
    security: SecurityType,
    rows: [[Option<u32>; 2]; 2],
    ghost sound: { all_ticked security rows ≡ true },
}

// The rows with one quote replaced. They are taken apart by pattern: an index would rest on the order of the variants.
fn with_quote(rows: [[Option<u32>; 2]; 2], update: QuoteUpdate) -> [[Option<u32>; 2]; 2]
    ensures { result ≡ laid rows update.origin update.side update.quote }
{
    let [[bmv_bid, bmv_offer], [biva_bid, biva_offer]] = rows;
    let quote = update.quote;
    match (update.origin, update.side) {
        (Origin::Bmv, Side::Buy) => [[quote, bmv_offer], [biva_bid, biva_offer]],
        (Origin::Bmv, Side::Sell) => [[bmv_bid, quote], [biva_bid, biva_offer]],
        (Origin::Biva, Side::Buy) => [[bmv_bid, bmv_offer], [quote, biva_offer]],
        (Origin::Biva, Side::Sell) => [[bmv_bid, bmv_offer], [biva_bid, quote]],
    }
}

impl Quotes {
    // No quote stands.
    fn none(security: SecurityType) -> Quotes
        ensures { (result.security ≡ security) × (result.rows ≡ no_quotes) }
    {
        Quotes {
            security,
            rows: [[None; 2]; 2],
        }
    }

    // A copy of the rows with one quote replaced.
    fn with_update(self, update: QuoteUpdate) -> Quotes
        requires { ticked self.security update.quote ≡ true }
        ensures { (result.security ≡ self.security) × (result.rows ≡ laid self.rows update.origin update.side update.quote) }
    {
        Quotes {
            security: self.security,
            rows: with_quote(self.rows, update),
        }
    }

    // The highest bid that stands. It and `offer` differ in the column and the choice alone: nothing is left to share.
    pub fn bid(&self) -> Option<u32>
        ensures value { result ≡ highest_bid self.now.rows }
        ensures sound { ticked self.now.security result ≡ true }
    {
        let [[bmv, _], [biva, _]] = self.rows;
        match (bmv, biva) {
            (Some(bmv), Some(biva)) => Some(bmv.max(biva)),
            _ => bmv.or(biva),
        }
    }

    // The lowest offer that stands.
    pub fn offer(&self) -> Option<u32>
        ensures value { result ≡ lowest_offer self.now.rows }
        ensures sound { ticked self.now.security result ≡ true }
    {
        let [[_, bmv], [_, biva]] = self.rows;
        match (bmv, biva) {
            (Some(bmv), Some(biva)) => Some(bmv.min(biva)),
            _ => bmv.or(biva),
        }
    }

    // Half the sum of the highest bid and the lowest offer where both stand; none otherwise.
    pub fn midpoint(&self) -> Option<u32>
        ensures value { result ≡ midpoint self.now.rows }
        ensures exact { IfSome result (λ m. Exact self.now.rows m) }
    {
        let bid = self.bid()?;
        let offer = self.offer()?;
        Some((bid + offer) / 2)
    }
}

// The quotes of one instrument. Its type stands in the quotes, whose invariant needs it: no struct of the two beside them.
#[derive(Clone, Copy, PartialEq, Eq, Debug)]
pub struct QuoteBoard {
    instrument: i32,
    quotes: Quotes,
}

impl QuoteBoard {
    ghost use Rattle.quotes.specs.Receiving.{LaysCopy, Receives};

    // A board on which no quote stands.
    pub fn new(instrument: i32, security: SecurityType) -> QuoteBoard
        ensures { (result.instrument ≡ instrument) × (result.quotes.security ≡ security) × (result.quotes.rows ≡ no_quotes) }
    {
        QuoteBoard {
            instrument,
            quotes: Quotes::none(security),
        }
    }

    // The midpoint of the quotes that stand.
    pub fn midpoint(&self) -> Option<u32>
        ensures value { result ≡ midpoint self.now.quotes.rows }
        ensures exact { IfSome result (λ m. Exact self.now.quotes.rows m) }
    {
        self.quotes.midpoint()
    }

    // The message at the front of the bytes, laid on a copy of the quotes, and the bytes behind it.
    pub fn lay<'a>(&self, bytes: &'a [u8]) -> Result<(Quotes, &'a [u8]), MessageFault>
        ensures { LaysCopy self.now bytes.now result }
    {
        let quotes = self.quotes;
        let (update, rest) = read_message(bytes, self.instrument, quotes.security)?;
        Ok((quotes.with_update(update), rest))
    }

    // The copy replaces the quotes.
    pub fn replace(&mut self, quotes: Quotes)
        ensures { (self.new.instrument ≡ self.old.instrument) × (self.new.quotes ≡ quotes) }
    {
        self.quotes = quotes;
    }

    // One message taken, and the midpoint after it; a refused one changes nothing.
    pub fn receive(&mut self, bytes: &[u8]) -> Result<Option<u32>, MessageFault>
        ensures { Receives self.old bytes.now self.new result }
    {
        let (quotes, _) = self.lay(bytes)?;
        self.replace(quotes);
        Ok(quotes.midpoint())
    }
}
