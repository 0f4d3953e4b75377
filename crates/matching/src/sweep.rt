// The sweep: as long as some pair can trade, the first such pair makes a fill.
ghost use Rattle.std.specs.Prelude.{◌≡◌, ◌≤◌, length, take, drop};
ghost use Rattle.rules.specs.Sweep.{after_fill, fill_of, settled};
ghost use Rattle.matching.specs.Sweeping.{FillsFirst, SweepsTo};

use crate::closing_up::close_up;
use crate::search::find_pair;
use base::Side;
use orders::order::Order;
use orders::priority::Priority;
use orders::trade::Fill;

// What a sweep comes to: how many fills it made, and how many orders then rest.
#[derive(Clone, Copy)]
pub struct Swept {
    pub fills: usize,
    pub resting: usize,
}

// The order after a fill: reduced by the fill's volume if it is one of the two.
fn after_fill<O: Order>(order: &O, fill: &Fill) -> O
    ensures { result ≡ after_fill O.kind fill.now order.now }
{
    let header = order.header();
    let party = match header.side {
        Side::Buy => fill.buyer,
        Side::Sell => fill.seller,
    };
    if party.folio == header.party.folio {
        order.reduced(fill.volume)
    } else {
        *order
    }
}

// Reduces both orders of a fill, and closes up where one has nothing left. Answers how many then rest.
fn settle<O: Order>(orders: &mut [O], fill: &Fill) -> usize
    ensures front { take result orders.new ≡ settled O.kind fill.now orders.old }
    ensures bound { result ≤ length orders.old }
{
    close_up(orders, |order| {
        let after = after_fill(order, fill);
        (after.header().left > 0).then_some(after)
    })
}

// What a pair makes at a price: both orders' parties, and the smaller of the two volumes left.
fn fill_of<O: Order>(buy: &O, sell: &O, price: u32) -> Fill
    ensures { result ≡ fill_of O.kind price buy.now sell.now }
{
    let buyer = buy.header();
    let seller = sell.header();
    Fill {
        price,
        volume: buyer.left.min(seller.left),
        buyer: buyer.party,
        seller: seller.party,
    }
}

// Fills the first pair of the orders; answers the fill and how many then rest, or none where no pair can trade.
fn fill_first<O: Order, P: Priority>(orders: &mut [O], price: u32) -> Option<(Fill, usize)>
    ensures { FillsFirst O.kind P.ranking price orders.old orders.new result }
{
    let (buy, sell) = find_pair::<O, P>(orders, price)?;
    let fill = fill_of(&orders[buy], &orders[sell], price);
    let left = settle(orders, &fill);
    Some((fill, left))
}

// Sweeps the resting orders at a price. The fills stand at the tape's front in the order made, and what still rests at
// the orders'. None, and nothing is altered, where the tape has fewer places than one less than rest.
pub fn sweep_orders<O: Order, P: Priority>(
    orders: &mut [O],
    price: u32,
    tape: &mut [Fill],
) -> Option<Swept>
    ensures { SweepsTo O.kind P.ranking price orders.old tape.old orders.new tape.new result }
{
    let mut resting = orders.len();
    if tape.len() < resting.saturating_sub(1) {
        return None;
    }
    let mut fills = 0;
    // By count: a `for` over the tape's places would need a proof, where the places run out, that no pair is left.
    while let Some((fill, left)) = fill_first::<O, P>(&mut orders[..resting], price) {
        tape[fills] = fill;
        fills += 1;
        resting = left;
    }
    Some(Swept { fills, resting })
}

// Sweeps the first orders of a table at a price; all of it, where it has no more. What stands behind them is not touched.
pub fn sweep<O: Order, P: Priority>(
    table: &mut [O],
    resting: usize,
    price: u32,
    tape: &mut [Fill],
) -> Option<Swept>
    ensures swept { SweepsTo O.kind P.ranking price (take resting table.old) tape.old (take resting table.new) tape.new result }
    ensures behind { drop resting table.new ≡ drop resting table.old }
{
    let rest = resting.min(table.len());
    sweep_orders::<O, P>(&mut table[..rest], price, tape)
}
