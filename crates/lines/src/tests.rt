// Each form, lines that are none of them, the lines that are written, and what refusals tell.
use crate::fault::{LineFault, LineReason};
use crate::output::OutputLine;
use crate::reading::read_line;
use base::{Layer, Refusal, Side};
use feed::fault::QuoteFault;
use kinds::midpoint::MidpointOrder;
use orders::trade::{Fill, Header, Party};
use quotes::fault::MessageFault;
use rules::call::Call;
use rules::fault::BookFault;
use std::test::Fail;

// An entry, by its side and the numbers of its line.
fn entry(side: Side, numbers: [u32; 5]) -> Option<Call<MidpointOrder>> {
    let [house, folio, volume, protection, minimum] = numbers;
    Some(Call::Enter(MidpointOrder {
        header: Header {
            side,
            party: Party { house, folio },
            entered: volume,
            left: volume,
        },
        protection,
        minimum,
    }))
}

fn cancel(house: u32, folio: u32) -> Option<Call<MidpointOrder>> {
    Some(Call::Cancel(Party { house, folio }))
}

fn price(price: Option<u32>) -> Option<Call<MidpointOrder>> {
    Some(Call::Price(price))
}

#[test]
fn reads_each_form(rt: HostRuntime) {
    assert_eq!(rt;
        read_line(b"E C 7 12 900 250000 500"),
        entry(Side::Buy, [7, 12, 900, 250_000, 500])
    );
    assert_eq!(rt;
        read_line(b"E V 7 13 900 250000 0"),
        entry(Side::Sell, [7, 13, 900, 250_000, 0])
    );
    assert_eq!(rt; read_line(b"K 7 12"), cancel(7, 12));
    let cross = Call::Cross {
        party: Party {
            house: 7,
            folio: 12,
        },
        volume: 900,
    };
    assert_eq!(rt; read_line(b"X 7 12 900"), Some(cross));
    assert_eq!(rt; read_line(b"P 250000"), price(Some(250_000)));
    assert_eq!(rt; read_line(b"P 0"), price(Some(0)));
    assert_eq!(rt; read_line(b"P -"), price(None));
}

#[test]
fn reads_numbers_of_32_bits(rt: HostRuntime) {
    assert_eq!(rt; read_line(b"P 4294967295"), price(Some(4_294_967_295)));
    assert_eq!(rt; read_line(b"K 65540 1"), cancel(65_540, 1));
}

#[rattlefmt::skip]
const NO_FORMS: [&[u8]; 35] = [
    // Numbers that are too large, or written otherwise.
    b"P 4294967296", b"P 99999999999999999999999999", b"P 01", b"P 00", b"P +1", b"P -1", b"P 1x", b"P ", b"P",
    // Fields that are not behind just one space.
    b"K 7  12", b"K 7 12 ", b" K 7 12", b"K7 12", b"K 7\t12", b"P - ", b"P  -",
    b"E  C 7 12 900 250000 500", b"E C7 12 900 250000 500", b"EC 7 12 900 250000 500",
    // A field too few, or one too many.
    b"K 7", b"K 7 12 1", b"X 7 12", b"E C 7 12 900 250000", b"E C 7 12 900 250000 500 1", b"P - 1",
    // Other letters and bytes.
    b"", b"k 7 12", b"E c 7 12 900 250000 500", b"E B 7 12 900 250000 500", b"E", b"L 7 12", b"\xff\x80", b"P \xb1",
    b"K 7 12\n",
    // More than 80 bytes.
    b"P 111111111111111111111111111111111111111111111111111111111111111111111111111111111111",
];

#[test]
fn reads_no_other_line(rt: HostRuntime) {
    for line in NO_FORMS {
        assert_eq!(rt; read_line(line), None);
    }
}

fn unknown_folio() -> LineFault {
    LineReason::Book(BookFault::UnknownFolio).at(9)
}

#[test]
fn writes_each_line(rt: HostRuntime) -> Result<(), Fail> {
    let heap = rt.alloc();
    let fill = OutputLine::Fill(Fill {
        price: 250_000,
        volume: 600,
        buyer: Party {
            house: 7,
            folio: 12,
        },
        seller: Party {
            house: 65_540,
            folio: 13,
        },
    });
    assert_eq!(rt;
        format!(in heap; "{fill}")?.as_str(),
        "F 250000 600 12 13 7 65540"
    );
    let cancel = OutputLine::Cancel {
        folio: 12,
        volume: 300,
    };
    assert_eq!(rt; format!(in heap; "{cancel}")?.as_str(), "K 12 300");
    let refused = OutputLine::Refused(unknown_folio());
    assert_eq!(rt; format!(in heap; "{refused}")?.as_str(), "R 8");
    let left = OutputLine::Left { folio: 12, left: 0 };
    assert_eq!(rt; format!(in heap; "{left}")?.as_str(), "L 12 0");
    let end = OutputLine::End(18_446_744_073_709_551_615);
    assert_eq!(rt;
        format!(in heap; "{end}")?.as_str(),
        "end 18446744073709551615"
    );
    Ok(())
}

fn refused(number: u32, place: u64) -> Refusal {
    Refusal {
        number,
        layer: Layer::Line,
        place,
    }
}

#[test]
fn tells_what_a_refusal_is_about(rt: HostRuntime) {
    assert_eq!(rt; Refusal::from(LineReason::NoForm.at(3)), refused(27, 3));
    assert_eq!(rt; Refusal::from(unknown_folio()), refused(8, 9));
    let too_short = QuoteFault::from(MessageFault::TooShort);
    assert_eq!(rt;
        Refusal::from(LineReason::Quotes(too_short).at(4)),
        refused(13, 4)
    );
}
