// Messages for instrument 7001, an equity, by their fields.
use base::{Layer, Refusal, Side};
use quotes::board::QuoteBoard;
use quotes::fault::MessageFault;
use quotes::message::{MESSAGE, Origin, QuoteUpdate, RawQuote, read_message};
use quotes::ticks::{SecurityType, UnknownType, is_on_tick};

const INSTRUMENT: i32 = 7001;

// A bid of the BMV for 500 at 24.5000 pesos.
const BID: RawQuote = RawQuote {
    kind: b'm',
    instrument: INSTRUMENT,
    origin: b'M',
    volume: 500,
    price: 2_450_000_000,
    side: b'C',
};

#[rattlefmt::skip]
fn bytes(f: RawQuote) -> [u8; MESSAGE] {
    let [i0, i1, i2, i3] = f.instrument.to_be_bytes();
    let [v0, v1, v2, v3, v4, v5, v6, v7] = f.volume.to_be_bytes();
    let [p0, p1, p2, p3, p4, p5, p6, p7] = f.price.to_be_bytes();
    [
        f.kind, i0, i1, i2, i3, f.origin,
        v0, v1, v2, v3, v4, v5, v6, v7,
        p0, p1, p2, p3, p4, p5, p6, p7,
        f.side, b'T',
    ]
}

// The refusal of a message, or nothing where it is accepted.
fn refused(f: RawQuote) -> Option<Refusal> {
    let message = bytes(f);
    let read = read_message(&message, INSTRUMENT, SecurityType::Equity);
    read.err().map(Refusal::from)
}

fn at(number: u32, place: u64) -> Option<Refusal> {
    Some(Refusal {
        number,
        layer: Layer::Message,
        place,
    })
}

// Every field from the third on is wrong here.
const ALL_WRONG: RawQuote = RawQuote {
    kind: b'p',
    instrument: 7002,
    origin: b'B',
    volume: -1,
    price: 1,
    side: b'S',
};

#[test]
fn accepted(rt: HostRuntime) {
    assert_eq!(rt; refused(BID), None);
}

#[test]
fn each_question_alone(rt: HostRuntime) {
    assert_eq!(rt; refused(RawQuote { kind: b'M', ..BID }), at(14, 0));
    assert_eq!(rt;
        refused(RawQuote {
            instrument: -7001,
            ..BID
        }),
        at(15, 1)
    );
    assert_eq!(rt;
        refused(RawQuote {
            origin: b'm',
            ..BID
        }),
        at(16, 5)
    );
    assert_eq!(rt; refused(RawQuote { side: b'c', ..BID }), at(17, 22));
    assert_eq!(rt; refused(RawQuote { volume: -1, ..BID }), at(18, 6));
    assert_eq!(rt;
        refused(RawQuote {
            price: 2_450_000_001,
            ..BID
        }),
        at(19, 14)
    );
}

#[test]
fn each_question_before_the_later_ones(rt: HostRuntime) {
    let kind = BID.kind;
    let instrument = BID.instrument;
    let origin = BID.origin;
    let side = BID.side;
    assert_eq!(rt; refused(ALL_WRONG), at(14, 0));
    assert_eq!(rt; refused(RawQuote { kind, ..ALL_WRONG }), at(15, 1));
    assert_eq!(rt;
        refused(RawQuote {
            kind,
            instrument,
            ..ALL_WRONG
        }),
        at(16, 5)
    );
    assert_eq!(rt;
        refused(RawQuote {
            kind,
            instrument,
            origin,
            ..ALL_WRONG
        }),
        at(17, 22)
    );
    assert_eq!(rt;
        refused(RawQuote {
            kind,
            instrument,
            origin,
            side,
            ..ALL_WRONG
        }),
        at(18, 6)
    );
}

#[test]
fn too_short(rt: HostRuntime) {
    let wrong = bytes(ALL_WRONG);
    let read = read_message(&wrong[..MESSAGE - 1], INSTRUMENT, SecurityType::Equity);
    assert_eq!(rt; read.err().map(Refusal::from), at(13, 0));
}

#[test]
fn prices(rt: HostRuntime) {
    let off_tick = at(19, 14);
    // 10,050 is off the equity tick, 10,100 is on it; 100,000,000 is the highest price.
    let told = [
        (100_500_000, off_tick),
        (101_000_000, None),
        (1_000_000_000_000, None),
        (1_000_001_000_000, off_tick),
        (0, off_tick),
        (-2_450_000_000, off_tick),
        (i64::MIN, off_tick),
        (i64::MAX, off_tick),
    ];
    for (price, expected) in told {
        assert_eq!(rt; refused(RawQuote { price, ..BID }), expected, "{price}");
    }
}

#[test]
fn a_clearing_message_has_no_price(rt: HostRuntime) {
    assert_eq!(rt;
        refused(RawQuote {
            volume: 0,
            price: -1,
            ..BID
        }),
        None
    );
    assert_eq!(rt;
        refused(RawQuote {
            volume: i64::MIN,
            ..BID
        }),
        at(18, 6)
    );
}

#[test]
fn ticks(rt: HostRuntime) {
    assert!(rt; is_on_tick(SecurityType::Equity, 10) && is_on_tick(SecurityType::Equity, 10_000));
    assert!(rt; !is_on_tick(SecurityType::Equity, 5) && !is_on_tick(SecurityType::Equity, 10_010));
    assert!(rt; is_on_tick(SecurityType::Sic, 100) && !is_on_tick(SecurityType::Sic, 10));
    assert!(rt;
        is_on_tick(SecurityType::Warrant, 100_000_000) && !is_on_tick(SecurityType::Warrant, 150)
    );
    assert!(rt;
        is_on_tick(SecurityType::FixedIncome, 1_000)
            && !is_on_tick(SecurityType::FixedIncome, 1_100)
    );
    assert!(rt; !is_on_tick(SecurityType::FixedIncome, 100_001_000));
}

// A message byte by byte, and two bytes behind it.
#[rattlefmt::skip]
const TWO_BEHIND: [u8; MESSAGE + 2] = [
    b'm',
    0x00, 0x00, 0x1b, 0x59,
    b'M',
    0x00, 0x00, 0x00, 0x00, 0x00, 0x00, 0x01, 0xf4,
    0x00, 0x00, 0x00, 0x00, 0x92, 0x08, 0x08, 0x80,
    b'C', b'T',
    7, 8,
];

#[test]
fn the_bytes_behind(rt: HostRuntime) {
    let update = QuoteUpdate {
        origin: Origin::Bmv,
        side: Side::Buy,
        quote: Some(245_000),
    };
    let behind = [7u8, 8];
    let read = read_message(&TWO_BEHIND, INSTRUMENT, SecurityType::Equity);
    assert_eq!(rt; read, Ok((update, behind.as_slice())));
    let board = QuoteBoard::new(INSTRUMENT, SecurityType::Equity);
    let laid = board.lay(&TWO_BEHIND);
    assert_eq!(rt;
        laid.map(|(quotes, rest)| (quotes.bid(), rest)),
        Ok((Some(245_000), behind.as_slice()))
    );
}

#[test]
fn words_and_letters(rt: HostRuntime) {
    assert_eq!(rt; "sic".parse::<SecurityType>(), Ok(SecurityType::Sic));
    assert_eq!(rt;
        "fixed".parse::<SecurityType>(),
        Ok(SecurityType::FixedIncome)
    );
    assert_eq!(rt; "Sic".parse::<SecurityType>(), Err(UnknownType));
    assert_eq!(rt; Origin::try_from(b'I'), Ok(Origin::Biva));
    assert_eq!(rt; Origin::try_from(b'i'), Err(MessageFault::UnknownOrigin));
}

#[test]
fn midpoint_of_bid_and_offer(rt: HostRuntime) {
    let mut board = QuoteBoard::new(INSTRUMENT, SecurityType::Equity);
    let bid = bytes(BID);
    let offer = bytes(RawQuote {
        side: b'V',
        price: 2_451_000_000,
        ..BID
    });
    assert_eq!(rt; board.receive(&bid).ok(), Some(None));
    assert_eq!(rt; board.receive(&offer).ok(), Some(Some(245_050)));
    assert_eq!(rt; board.midpoint(), Some(245_050));
}
