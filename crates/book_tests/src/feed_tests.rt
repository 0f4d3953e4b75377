// Messages fed to a board and a book at once.
use crate::closing::order;
use base::{Layer, Refusal, Side};
use book::open::OpenBook;
use feed::call::feed;
use kinds::closing::{ClosingOrder, Quantity};
use kinds::priorities::ArrivalPriority;
use orders::trade::Fill;
use quotes::board::QuoteBoard;
use quotes::ticks::SecurityType;

// The BMV bids 245,000 for instrument 7001, and offers at 245,100; three bytes follow the offer.
// The tests of quotes have a bid of their own: what stands in tests cannot be imported.
#[rattlefmt::skip]
const BID: [u8; 24] = [
    b'm', 0, 0, 0x1b, 0x59, b'M', 0, 0, 0, 0, 0, 0, 1, 0xf4,
    0, 0, 0, 0, 0x92, 0x08, 0x08, 0x80, b'C', b'T',
];

#[rattlefmt::skip]
const OFFER: [u8; 27] = [
    b'm', 0, 0, 0x1b, 0x59, b'M', 0, 0, 0, 0, 0, 0, 1, 0xf4,
    0, 0, 0, 0, 0x92, 0x17, 0x4a, 0xc0, b'V', b'T', 7, 8, 9,
];

fn quotes_refuse(number: u32) -> Told {
    Err(Refusal {
        number,
        layer: Layer::Quotes,
        place: 0,
    })
}

// A message's answer: its fills and the number of bytes behind it, or its refusal.
type Told = Result<(usize, usize), Refusal>;

fn fed(
    board: &mut QuoteBoard,
    book: &mut OpenBook<'_, ClosingOrder, ArrivalPriority>,
    bytes: &[u8],
    tape: &mut [Fill],
) -> Told {
    feed(board, book, bytes, tape)
        .map(|(fills, rest)| (fills, rest.len()))
        .map_err(Refusal::from)
}

// What the five calls below answer, and the midpoint after the refused offer and at the end.
type Day = ([Told; 5], Option<u32>, Option<u32>);

fn day(tape: &mut [Fill; 1]) -> Day {
    let mut table = [order(Side::Buy, 1, 1, 100, Quantity::Partial); 4];
    let mut board = QuoteBoard::new(7001, SecurityType::Equity);
    let mut book: OpenBook<'_, ClosingOrder, ArrivalPriority> = OpenBook::new(&mut table);
    let _ = book.enter(order(Side::Buy, 4, 1, 100, Quantity::Partial), tape);
    let _ = book.enter(order(Side::Sell, 8, 2, 100, Quantity::Partial), tape);
    let bid = fed(&mut board, &mut book, &BID, tape);
    let refused = fed(&mut board, &mut book, &OFFER, &mut []);
    let between = board.midpoint();
    let short = fed(&mut board, &mut book, &OFFER[0..23], tape);
    let other = fed(&mut board, &mut book, &OFFER[1..27], tape);
    let offer = fed(&mut board, &mut book, &OFFER, tape);
    let after = board.midpoint();
    let _table = book.close().end();
    ([bid, refused, short, other, offer], between, after)
}

// An offer that makes a midpoint is refused where the tape has no place for the fill, and nothing is altered: the same
// offer is then taken, trades the two orders, and leaves the bytes behind it.
#[test]
fn the_book_accepts_before_the_quotes_change(rt: HostRuntime) {
    let mut tape = [Fill::default()];
    let (told, between, after) = day(&mut tape);
    let expected = [
        Ok((0, 0)),
        quotes_refuse(7),
        quotes_refuse(13),
        quotes_refuse(14),
        Ok((1, 3)),
    ];
    assert_eq!(rt; told, expected);
    assert_eq!(rt; (between, after), (None, Some(245_050)));
    assert_eq!(rt; (tape[0].price, tape[0].volume), (245_050, 100));
}
