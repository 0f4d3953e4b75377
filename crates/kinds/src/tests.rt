// What each kind takes and refuses, and which of two orders is before the other.
use crate::closing::{ClosingOrder, Quantity};
use crate::midpoint::MidpointOrder;
use crate::priorities::{ArrivalPriority, VolumePriority};
use base::Side;
use orders::fault::OwnFault;
use orders::order::Order;
use orders::priority::Priority;
use orders::trade::{Header, Party};

fn shown(side: Side, folio: u32, entered: u32, left: u32) -> Header {
    Header {
        side,
        party: Party { house: 7, folio },
        entered,
        left,
    }
}

fn midpoint(side: Side, protection: u32, minimum: u32) -> MidpointOrder {
    MidpointOrder {
        header: shown(side, 1, 1_000, 600),
        protection,
        minimum,
    }
}

fn closing(quantity: Quantity) -> ClosingOrder {
    ClosingOrder {
        header: shown(Side::Sell, 1, 1_000, 300),
        quantity,
    }
}

// The number of the kind's own question that is answered no, or 0, and no `Option`: tests keep their values.
fn own_number<O: Order>(order: O) -> u32 {
    order.ask_own().err().map_or(0, OwnFault::number)
}

#[test]
fn takes_its_minimum_and_more(rt: HostRuntime) {
    let buy = midpoint(Side::Buy, 250_000, 500);
    assert!(rt; !buy.takes(499, 250_000));
    assert!(rt; buy.takes(500, 250_000));
    assert!(rt; buy.takes(600, 1));
}

#[test]
fn takes_within_its_protection(rt: HostRuntime) {
    assert!(rt; !midpoint(Side::Buy, 250_000, 500).takes(500, 250_001));
    assert!(rt; midpoint(Side::Sell, 250_000, 500).takes(500, 250_001));
    assert!(rt; !midpoint(Side::Sell, 250_000, 500).takes(500, 249_999));
}

#[test]
fn asks_its_own_questions_in_order(rt: HostRuntime) {
    assert_eq!(rt; own_number(midpoint(Side::Buy, 0, 0)), 4);
    assert_eq!(rt; own_number(midpoint(Side::Buy, 100_000_001, 1)), 4);
    assert_eq!(rt; own_number(midpoint(Side::Buy, 1, 0)), 5);
    assert_eq!(rt; own_number(midpoint(Side::Buy, 1, 1_001)), 5);
    // The minimum may be more than is left, and not more than was entered.
    assert_eq!(rt; own_number(midpoint(Side::Buy, 100_000_000, 1_000)), 0);
}

#[test]
fn all_or_none_takes_only_what_is_left(rt: HostRuntime) {
    assert!(rt; closing(Quantity::AllOrNone).takes(300, 1));
    assert!(rt; !closing(Quantity::AllOrNone).takes(299, 1));
    assert!(rt; !closing(Quantity::AllOrNone).takes(0, 1));
    assert!(rt; closing(Quantity::Partial).takes(299, 1));
    assert_eq!(rt; own_number(closing(Quantity::AllOrNone)), 0);
}

#[test]
fn reducing_changes_what_is_left_alone(rt: HostRuntime) {
    let less = midpoint(Side::Buy, 250_000, 500).reduced(600);
    assert_eq!(rt; less.header().left, 0);
    assert_eq!(rt; less.header().entered, 1_000);
    assert_eq!(rt; less.minimum, 500);
    assert_eq!(rt; closing(Quantity::Partial).reduced(100).header().left, 200);
    assert_eq!(rt; closing(Quantity::Partial).reduced(301).header().left, 300);
}

#[test]
fn the_larger_volume_entered_is_before(rt: HostRuntime) {
    let large = shown(Side::Buy, 2, 900, 1);
    let small = shown(Side::Buy, 1, 800, 800);
    assert!(rt; VolumePriority::before(&large, &small));
    assert!(rt; !VolumePriority::before(&small, &large));
    assert!(rt; VolumePriority::before(&shown(Side::Buy, 1, 900, 1), &large));
    assert!(rt; !VolumePriority::before(&large, &large));
}

#[test]
fn the_lower_folio_is_before(rt: HostRuntime) {
    let first = shown(Side::Sell, 1, 1, 1);
    let second = shown(Side::Sell, 2, 900, 900);
    assert!(rt; ArrivalPriority::before(&first, &second));
    assert!(rt; !ArrivalPriority::before(&second, &first));
}
