// The Last Quote message: taken apart, then judged field by field.
ghost use Rattle.std.specs.Prelude.{◌≡◌, ◌+◌, ◌<◌, length, drop, MatchOption, ok_or};
ghost use Rattle.quotes.specs.declared.fault.MessageFault.TheVariants.{UnknownOrigin};
ghost use Rattle.quotes.specs.Message.{fields, origin_of, tick_price, Judges, ReadsMessage};

use crate::fault::MessageFault;
use crate::ticks::{SecurityType, is_on_tick};
use base::Side;

// How many bytes a message has.
pub const MESSAGE: usize = 24;

// The exchange that sent a quote.
#[derive(Clone, Copy, PartialEq, Eq, Debug)]
pub enum Origin {
    Bmv,
    Biva,
}

// The exchange that a message's letter names.
// Another table of letters than a side's, with another error: no twin, since the two share no row.
impl TryFrom<u8> for Origin {
    type Error = MessageFault;

    ghost try_from_gives = { λ letter result. result ≡ ok_or (origin_of letter) UnknownOrigin };

    fn try_from(letter: u8) -> Result<Origin, MessageFault> {
        match letter as char {
            'M' => Ok(Origin::Bmv),
            'I' => Ok(Origin::Biva),
            _ => Err(MessageFault::UnknownOrigin),
        }
    }
}

// The fields of a message as its bytes hold them, before any of them is judged.
#[derive(Clone, Copy, PartialEq, Eq, Debug)]
pub struct RawQuote {
    pub kind: u8,
    pub instrument: i32,
    pub origin: u8,
    pub volume: i64,
    pub price: i64,
    pub side: u8,
}

// What an accepted message makes of one of the four quotes: a price, or none where it clears it.
#[derive(Clone, Copy, PartialEq, Eq, Debug)]
pub struct QuoteUpdate {
    pub origin: Origin,
    pub side: Side,
    pub quote: Option<u32>,
}

// The fields of the message at the front, and the bytes behind it; none where there are too few bytes. All of it is named
// by one slice pattern, a code form of this project.
#[rattlefmt::skip]
pub fn take_apart(bytes: &[u8]) -> Option<(RawQuote, &[u8])>
    ensures { MatchOption result (length bytes.now < 24) (λ p. (p.0 ≡ fields bytes.now) × (p.1.now ≡ drop 24 bytes.now) × (length p.1.now + 24 ≡ length bytes.now)) }
{
    let [
        kind,
        i0, i1, i2, i3,
        origin,
        v0, v1, v2, v3, v4, v5, v6, v7,
        p0, p1, p2, p3, p4, p5, p6, p7,
        side,
        _trading_type,
        rest @ ..
    ] = bytes else {
        return None;
    };
    let raw = RawQuote {
        kind: *kind,
        instrument: i32::from_be_bytes([*i0, *i1, *i2, *i3]),
        origin: *origin,
        volume: i64::from_be_bytes([*v0, *v1, *v2, *v3, *v4, *v5, *v6, *v7]),
        price: i64::from_be_bytes([*p0, *p1, *p2, *p3, *p4, *p5, *p6, *p7]),
        side: *side,
    };
    Some((raw, rest))
}

// The price on its tick of which a message's price is 10,000 times; none where there is none.
fn price_of(security: SecurityType, hundred_millionths: i64) -> Option<u32>
    ensures { result ≡ tick_price security hundred_millionths }
{
    let units = u64::try_from(hundred_millionths).ok()?;
    if units % 10_000 != 0 {
        return None;
    }
    let price = u32::try_from(units / 10_000).ok()?;
    is_on_tick(security, price).then_some(price)
}

impl RawQuote {
    // The questions of the fields, in their order. Instrument and type come apart here and below: the quotes keep the type.
    fn judge(&self, instrument: i32, security: SecurityType) -> Result<QuoteUpdate, MessageFault>
        ensures { Judges instrument security self.now result }
    {
        // The letter by a pattern: a code form of this project.
        let 'm' = self.kind as char else {
            return Err(MessageFault::NotLastQuote);
        };
        if self.instrument != instrument {
            return Err(MessageFault::OtherInstrument);
        }
        let origin = Origin::try_from(self.origin)?;
        let side = Side::try_from(self.side).map_err(|_| MessageFault::UnknownSide)?;
        if self.volume < 0 {
            return Err(MessageFault::NegativeVolume);
        }
        let quote = if self.volume == 0 {
            None
        } else {
            Some(price_of(security, self.price).ok_or(MessageFault::OffTick)?)
        };
        Ok(QuoteUpdate {
            origin,
            side,
            quote,
        })
    }
}

// The message at the front of the bytes, read for one instrument, and the bytes behind it.
pub fn read_message(
    bytes: &[u8],
    instrument: i32,
    security: SecurityType,
) -> Result<(QuoteUpdate, &[u8]), MessageFault>
    ensures { ReadsMessage instrument security bytes.now result }
{
    let (raw, rest) = take_apart(bytes).ok_or(MessageFault::TooShort)?;
    let update = raw.judge(instrument, security)?;
    Ok((update, rest))
}
