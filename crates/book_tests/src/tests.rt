// A day of closing orders under arrival priority, run whole.
use crate::closing::order;
use base::{Refusal, Side};
use book::closed::Unfilled;
use book::day::{DayRun, Reply, run_day};
use kinds::closing::{ClosingOrder, Quantity};
use kinds::priorities::ArrivalPriority;
use orders::trade::{Fill, Party};
use rules::call::{Answer, Call};
use rules::fault::BookFault;

const UNANSWERED: Reply = Err(BookFault::ListTooShort);

fn enter(
    side: Side,
    house: u32,
    folio: u32,
    volume: u32,
    quantity: Quantity,
) -> Call<ClosingOrder> {
    Call::Enter(order(side, house, folio, volume, quantity))
}

// An answer, with the number of its refusal.
fn numbered<T>(answer: Result<T, BookFault>) -> Result<T, u32> {
    answer.map_err(|fault| Refusal::from(fault).number)
}

// A fill between two orders whose houses have the same numbers as their folios.
fn fill(price: u32, volume: u32, buyer: u32, seller: u32) -> Fill {
    Fill {
        price,
        volume,
        buyer: Party {
            house: buyer,
            folio: buyer,
        },
        seller: Party {
            house: seller,
            folio: seller,
        },
    }
}

// Makes the calls on a new book over the table and closes it: how many fills that made, and how many orders are listed.
fn run(
    table: &mut [ClosingOrder],
    calls: &[Call<ClosingOrder>],
    replies: &mut [Reply],
    tape: &mut [Fill],
    list: &mut [Unfilled],
) -> (Result<usize, u32>, Result<usize, u32>) {
    let DayRun { book, fills } = run_day::<ClosingOrder, ArrivalPriority>(
        table, calls, replies, tape,
    );
    let closed = book.close();
    let listed = closed.unfilled(list);
    let _table = closed.end();
    (numbered(fills), numbered(listed))
}

fn closing_calls() -> [Call<ClosingOrder>; 9] {
    [
        enter(Side::Buy, 1, 1, 300, Quantity::Partial),
        enter(Side::Sell, 2, 2, 500, Quantity::AllOrNone),
        enter(Side::Sell, 3, 3, 100, Quantity::Partial),
        Call::Price(Some(245_050)),
        enter(Side::Buy, 4, 4, 500, Quantity::AllOrNone),
        enter(Side::Buy, 5, 4, 10, Quantity::Partial),
        enter(Side::Sell, 6, 6, 400, Quantity::AllOrNone),
        Call::Cancel(Party { house: 6, folio: 6 }),
        Call::Cross {
            party: Party { house: 7, folio: 7 },
            volume: 20,
        },
    ]
}

// An all-or-none sell of 500 meets no buy of 300, and is filled whole by an all-or-none buy of 500, though a partial
// buy came before. The folio that is not above the highest is refused.
#[test]
fn a_closing_day(rt: HostRuntime) {
    let mut replies = [UNANSWERED; 9];
    let mut tape = [Fill::default(); 16];
    let mut list = [Unfilled::default(); 4];
    let ran = run(
        &mut [ClosingOrder::default(); 4],
        &closing_calls(),
        &mut replies,
        &mut tape,
        &mut list,
    );
    assert_eq!(rt; ran, (Ok(3), Ok(1)));
    let told = [
        Ok(Answer::Filled(0)),
        Ok(Answer::Filled(0)),
        Ok(Answer::Filled(0)),
        Ok(Answer::Filled(1)),
        Ok(Answer::Filled(1)),
        Err(2),
        Ok(Answer::Filled(0)),
        Ok(Answer::Cancelled(400)),
        Ok(Answer::Filled(1)),
    ];
    assert_eq!(rt; replies.map(numbered), told);
    let fills = [
        fill(245_050, 100, 1, 3),
        fill(245_050, 500, 4, 2),
        fill(245_050, 20, 7, 7),
    ];
    let [f0, f1, f2, ..] = tape;
    assert_eq!(rt; [f0, f1, f2], fills);
    assert_eq!(rt;
        list[0],
        Unfilled {
            folio: 1,
            left: 200
        }
    );
}

// Of two buys that can trade, the one that arrived first is filled, however large the other is.
#[test]
fn arrival_comes_first(rt: HostRuntime) {
    let calls = [
        Call::Price(Some(100)),
        enter(Side::Buy, 1, 1, 10, Quantity::Partial),
        enter(Side::Buy, 2, 2, 5_000, Quantity::Partial),
        enter(Side::Sell, 3, 3, 30, Quantity::Partial),
    ];
    let mut tape = [Fill::default(); 4];
    let (fills, _) = run(
        &mut [ClosingOrder::default(); 4],
        &calls,
        &mut [UNANSWERED; 4],
        &mut tape,
        &mut [],
    );
    assert_eq!(rt; fills, Ok(2));
    let [f0, f1, ..] = tape;
    assert_eq!(rt; [f0, f1], [fill(100, 10, 1, 3), fill(100, 20, 2, 3)]);
}

// With no place for each answer no call is made.
#[test]
fn too_few_replies(rt: HostRuntime) {
    let calls = [Call::Price(Some(100)), Call::Price(None)];
    let (fills, _) = run(
        &mut [ClosingOrder::default()],
        &calls,
        &mut [UNANSWERED],
        &mut [Fill::default()],
        &mut [],
    );
    assert_eq!(rt; fills, Err(12));
}
