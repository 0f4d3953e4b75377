// Blocks written byte by byte, and what is refused.
use base::{Layer, Refusal};
use orders::trade::{Fill, Party};
use std::process::Abort;
use tape::fault::BlockFault;
use tape::reading::read_block;
use tape::writing::write_block;

// A fill in which every byte of every field is another.
const FIRST: Fill = Fill {
    price: 0x0304_0506,
    volume: 0x0007_0809,
    buyer: Party {
        house: 0x0102,
        folio: 0x0a0b_0c0d,
    },
    seller: Party {
        house: 0x0203,
        folio: 0x0e0f_1011,
    },
};

const SECOND: Fill = Fill {
    price: 245_050,
    volume: 4_000,
    buyer: Party {
        house: 4,
        folio: 101,
    },
    seller: Party {
        house: 8,
        folio: 102,
    },
};

#[rattlefmt::skip]
const TWO: [u8; 48] = [
    0, 0, 0, 2, 0, 0, 0, 48,
    0x0a, 0x0b, 0x0c, 0x0d, 0x0e, 0x0f, 0x10, 0x11, 0x01, 0x02, 0x02, 0x03,
    0, 0, 0, 101, 0, 0, 0, 102, 0, 4, 0, 8,
    0x00, 0x07, 0x08, 0x09, 0x03, 0x04, 0x05, 0x06,
    0, 0, 0x0f, 0xa0, 0, 0x03, 0xbd, 0x3a,
];

// What was there before, in buffers and in lists.
const OLD: u8 = 0xee;

const OTHER: Fill = Fill {
    price: 1,
    volume: 1,
    ..SECOND
};

fn at(number: u32, place: u64) -> Option<Refusal> {
    Some(Refusal {
        number,
        layer: Layer::Block,
        place,
    })
}

// `reading` and `writing` below have one size each: as a parameter it would ask for a bound, which is no plainer.
fn refused(answer: Result<usize, BlockFault>) -> Option<Refusal> {
    answer.err().map(Refusal::from)
}

// What reading answers to bytes, with places for three fills; the list then holds what it held where it is refused.
fn reading(rt: &impl Abort, bytes: &[u8]) -> Option<Refusal> {
    let mut list = [OTHER; 3];
    let answer = refused(read_block(bytes, &mut list));
    if answer.is_some() {
        assert_eq!(rt; list, [OTHER; 3]);
    }
    answer
}

// What writing answers to one fill; the buffer then holds what it held where it is refused.
fn writing(rt: &impl Abort, fill: Fill) -> Option<Refusal> {
    let mut buffer = [OLD; 28];
    let answer = refused(write_block(&[fill], &mut buffer));
    if answer.is_some() {
        assert!(rt; buffer == [OLD; 28]);
    }
    answer
}

#[test]
fn no_fills(rt: HostRuntime) {
    let mut buffer = [OLD; 10];
    assert_eq!(rt; write_block(&[], &mut buffer).ok(), Some(8));
    assert!(rt; buffer == [0, 0, 0, 0, 0, 0, 0, 8, OLD, OLD]);
    let mut list = [OTHER];
    assert_eq!(rt; read_block(&buffer[0..8], &mut list).ok(), Some(0));
    assert_eq!(rt; list, [OTHER]);
}

#[test]
fn two_fills_byte_by_byte(rt: HostRuntime) {
    let mut buffer = [OLD; 50];
    assert_eq!(rt; write_block(&[FIRST, SECOND], &mut buffer).ok(), Some(48));
    assert!(rt; buffer[0..48] == TWO[0..48]);
    assert_eq!(rt; (buffer[48], buffer[49]), (OLD, OLD));
    let mut list = [OTHER; 3];
    assert_eq!(rt; read_block(&TWO, &mut list).ok(), Some(2));
    assert_eq!(rt; list, [FIRST, SECOND, OTHER]);
}

#[test]
fn sizes_of_a_block(rt: HostRuntime) {
    // Too short to tell its sizes, whatever it begins with.
    assert_eq!(rt; reading(&rt, &[]), at(20, 0));
    assert_eq!(rt; reading(&rt, &[0xff; 7]), at(20, 0));
    // 3,001 fills, and as many as four bytes can say, with a length that fits a sum that wraps.
    assert_eq!(rt; reading(&rt, &[0, 0, 0x0b, 0xb9, 0, 0, 0, 8]), at(21, 0));
    assert_eq!(rt;
        reading(&rt, &[0xff, 0xff, 0xff, 0xff, 0xff, 0xff, 0xff, 0xf4]),
        at(21, 0)
    );
    assert_eq!(rt;
        reading(&rt, &[0x0c, 0xcc, 0xcc, 0xcd, 0, 0, 0, 12]),
        at(21, 0)
    );
    // 3,000 fills are not too many, but their bytes are not there.
    assert_eq!(rt;
        reading(&rt, &[0, 0, 0x0b, 0xb8, 0, 0, 0xea, 0x68]),
        at(22, 4)
    );
    // The length field wrong, then the bytes too few and too many.
    assert_eq!(rt; reading(&rt, &[0, 0, 0, 0, 0, 0, 0, 9]), at(22, 4));
    assert_eq!(rt; reading(&rt, &[0, 0, 0, 0, 1, 0, 0, 8]), at(22, 4));
    assert_eq!(rt; reading(&rt, &TWO[0..47]), at(22, 4));
    assert_eq!(rt; reading(&rt, &[0, 0, 0, 0, 0, 0, 0, 8, 0]), at(22, 4));
    assert_eq!(rt; reading(&rt, &TWO), None);
}

#[test]
fn a_list_too_short(rt: HostRuntime) {
    let mut list = [OTHER];
    assert_eq!(rt; refused(read_block(&TWO, &mut list)), at(25, 0));
    assert_eq!(rt; list, [OTHER]);
}

#[test]
fn a_buffer_too_short(rt: HostRuntime) {
    let mut buffer = [OLD; 47];
    assert_eq!(rt;
        refused(write_block(&[FIRST, SECOND], &mut buffer)),
        at(26, 0)
    );
    assert!(rt; buffer == [OLD; 47]);
    assert_eq!(rt; refused(write_block(&[], &mut [OLD; 7])), at(26, 0));
}

// The block of two fills with one byte changed.
fn changed(place: usize, byte: u8) -> [u8; 48] {
    let mut block = TWO;
    if let Some(old) = block.get_mut(place) {
        *old = byte;
    }
    block
}

#[test]
fn the_first_bad_entry_of_a_block(rt: HostRuntime) {
    // A folio's top bit, a house over 999 and a house of 0, in the first entry and in the second.
    assert_eq!(rt; reading(&rt, &changed(8, 0x80)), at(23, 8));
    assert_eq!(rt; reading(&rt, &changed(12, 0x80)), at(23, 8));
    assert_eq!(rt; reading(&rt, &changed(16, 0x04)), at(23, 8));
    assert_eq!(rt; reading(&rt, &changed(18, 0x04)), at(23, 8));
    assert_eq!(rt; reading(&rt, &changed(20, 0x80)), at(23, 20));
    assert_eq!(rt; reading(&rt, &changed(29, 0)), at(23, 20));
    assert_eq!(rt; reading(&rt, &changed(31, 0)), at(23, 20));
    // A volume and a price too high, in the first entry and in the second.
    assert_eq!(rt; reading(&rt, &changed(32, 1)), at(24, 32));
    assert_eq!(rt; reading(&rt, &changed(36, 0x06)), at(24, 32));
    assert_eq!(rt; reading(&rt, &changed(40, 1)), at(24, 40));
    assert_eq!(rt; reading(&rt, &changed(44, 0x06)), at(24, 40));
}

#[test]
fn every_who_entry_before_any_what_entry(rt: HostRuntime) {
    let mut block = changed(32, 1);
    block[20] = 0x80;
    assert_eq!(rt; reading(&rt, &block), at(23, 20));
    // Both before the list's places.
    assert_eq!(rt; refused(read_block(&block, &mut [])), at(23, 20));
    assert_eq!(rt; refused(read_block(&changed(40, 1), &mut [])), at(24, 40));
    let bad = Fill {
        volume: 0,
        ..SECOND
    };
    let worse = Fill {
        seller: Party { house: 8, folio: 0 },
        ..SECOND
    };
    let mut buffer = [OLD; 10];
    assert_eq!(rt;
        refused(write_block(&[bad, worse], &mut buffer)),
        at(23, 20)
    );
    assert_eq!(rt;
        refused(write_block(&[SECOND, bad], &mut buffer)),
        at(24, 40)
    );
    assert!(rt; buffer == [OLD; 10]);
}

fn bought_by(house: u32, folio: u32) -> Fill {
    Fill {
        buyer: Party { house, folio },
        ..SECOND
    }
}

fn sold_by(house: u32, folio: u32) -> Fill {
    Fill {
        seller: Party { house, folio },
        ..SECOND
    }
}

fn of(volume: u32, price: u32) -> Fill {
    Fill {
        volume,
        price,
        ..SECOND
    }
}

#[test]
fn each_field_at_its_ends(rt: HostRuntime) {
    for fill in &[bought_by(1, 1), sold_by(1, 1), of(1, 1)] {
        assert_eq!(rt; writing(&rt, *fill), None);
    }
    for fill in &[
        bought_by(999, 2_147_483_647),
        sold_by(999, 2_147_483_647),
        of(9_000_000, 100_000_000),
    ] {
        assert_eq!(rt; writing(&rt, *fill), None);
    }
}

#[test]
fn each_field_one_past_its_ends(rt: HostRuntime) {
    for fill in &[
        bought_by(0, 1),
        bought_by(1_000, 1),
        bought_by(65_537, 1),
        bought_by(1, 0),
        bought_by(1, 2_147_483_648),
        sold_by(0, 1),
        sold_by(1_000, 1),
        sold_by(1, 0),
        sold_by(1, 2_147_483_648),
    ] {
        assert_eq!(rt; writing(&rt, *fill), at(23, 8));
    }
    for fill in &[of(0, 1), of(9_000_001, 1), of(1, 0), of(1, 100_000_001)] {
        assert_eq!(rt; writing(&rt, *fill), at(24, 20));
    }
}

#[test]
fn three_thousand_fills_and_one_more(rt: HostRuntime) {
    let fills = [FIRST; 3_001];
    let mut buffer = [OLD; 60_010];
    assert_eq!(rt; refused(write_block(&fills, &mut buffer)), at(21, 0));
    assert_eq!(rt;
        write_block(&fills[0..3_000], &mut buffer).ok(),
        Some(60_008)
    );
    assert_eq!(rt;
        (buffer[60_007], buffer[60_008], buffer[60_009]),
        (0x06, OLD, OLD)
    );
    let mut list = [OTHER; 3_001];
    assert_eq!(rt; read_block(&buffer[0..60_008], &mut list).ok(), Some(3_000));
    assert!(rt; list.iter().take(3_000).all(|fill| *fill == FIRST));
    assert_eq!(rt; list[3_000], OTHER);
}
