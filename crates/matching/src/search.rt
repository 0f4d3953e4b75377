// The search for the first pair that can trade at a price.
ghost use Rattle.std.specs.Prelude.{◌≡◌, MatchOption};
ghost use Rattle.rules.specs.Pairs.{can_trade, First, one_house, own_first, stands_before, Still};
ghost use Rattle.matching.specs.Rows.{better, chosen, earlier, FirstSell, RowPair};

use base::Side;
use orders::order::Order;
use orders::priority::Priority;
use orders::trade::Header;

// An order with what it shows, which is read once. A copy: the loop over the sells then reads nothing of the buy again.
#[derive(Drop)]
struct Shown<O: Order> {
    order: O,
    header: Header,
    ghost as_shown: { header ≡ O.kind.header order },
}

impl<O: Order> Shown<O> {
    fn of(order: &O) -> Self
        ensures { result.order ≡ order.now }
    {
        Shown {
            order: *order,
            header: order.header(),
        }
    }

    // Can this order, as the buy, trade with the other?
    fn can_trade(&self, sell: &Shown<O>, price: u32) -> bool
        ensures { result ≡ can_trade O.kind price self.now.order sell.now.order }
    {
        match (self.header.side, sell.header.side) {
            (Side::Buy, Side::Sell) => {
                let volume = self.header.left.min(sell.header.left);
                self.order.takes(volume, price) && sell.order.takes(volume, price)
            }
            _ => false,
        }
    }
}

// An order by its place, and what it shows.
#[derive(Clone, Copy)]
struct Placed {
    place: usize,
    header: Header,
}

// A pair that can trade.
#[derive(Clone, Copy)]
struct Candidate {
    buy: Placed,
    sell: Placed,
}

fn one_house(one: &Header, other: &Header) -> bool
    ensures { result ≡ one_house one.now other.now }
{
    one.party.house == other.party.house
}

// What is of one house comes before what is not. Where both are, or neither is, the priority decides by a and b.
fn own_first<P: Priority>(own: bool, other: bool, a: &Header, b: &Header) -> bool
    ensures { result ≡ own_first own other (P.ranking.before a.now b.now) }
{
    if own == other { P::before(a, b) } else { own }
}

// Does the order trade with a before it trades with b?
fn stands_before<P: Priority>(order: &Header, a: &Header, b: &Header) -> bool
    ensures { result ≡ stands_before P.ranking order.now a.now b.now }
{
    own_first::<P>(one_house(order, a), one_house(order, b), a, b)
}

// Is this sell better for the buy than the best so far?
fn is_better<P: Priority>(buy: &Header, sell: &Header, best: Option<Placed>) -> bool
    ensures { result ≡ better P.ranking buy.now sell.now best }
{
    best.is_none_or(|best| stands_before::<P>(buy, sell, &best.header))
}

// The first sell for one buy.
// The orders and the price are two parameters: no fact ties them, and a struct of both would only be taken apart here.
fn first_sell<O: Order, P: Priority>(orders: &[O], buy: &Shown<O>, price: u32) -> Option<Placed>
    ensures { FirstSell O.kind P.ranking price orders.now buy.now.order result }
{
    let mut best = None;
    for (place, order) in orders.iter().enumerate() {
        let sell = Shown::of(order);
        if buy.can_trade(&sell, price) && is_better::<P>(&buy.header, &sell.header, best) {
            best = Some(Placed {
                place,
                header: sell.header,
            });
        }
    }
    best
}

// The first pair of one row; none where the order is no buy, or no sell can trade with it.
fn row_pair<O: Order, P: Priority>(
    orders: &[O],
    place: usize,
    order: &O,
    price: u32,
) -> Option<Candidate>
    ensures { RowPair O.kind P.ranking price orders.now place order.now result }
{
    let buy = Shown::of(order);
    if buy.header.side == Side::Sell {
        return None;
    }
    let sell = first_sell::<O, P>(orders, &buy, price)?;
    let buy = Placed {
        place,
        header: buy.header,
    };
    Some(Candidate { buy, sell })
}

// Does the pair of a later row come before the best so far?
fn is_earlier<P: Priority>(new: &Candidate, best: &Candidate) -> bool
    ensures { result ≡ earlier P.ranking new.now best.now }
{
    let own_new = one_house(&new.buy.header, &new.sell.header);
    let own_best = one_house(&best.buy.header, &best.sell.header);
    own_first::<P>(own_new, own_best, &new.buy.header, &best.buy.header)
}

// The better of the best so far and the pair of a later row.
fn better_pair<P: Priority>(best: Option<Candidate>, row: Option<Candidate>) -> Option<Candidate>
    ensures { result ≡ chosen P.ranking best row }
{
    row.filter(|new| best.is_none_or(|best| is_earlier::<P>(new, &best)))
        .or(best)
}

// The first pair of the orders that can trade at the price, as two places, the buy's first.
pub fn find_pair<O: Order, P: Priority>(orders: &[O], price: u32) -> Option<(usize, usize)>
    ensures { MatchOption result (Still O.kind price orders.now) (λ p. (b : O) × (s : O) × First O.kind P.ranking price orders.now p.0 p.1 b s) }
{
    let mut best = None;
    for (place, order) in orders.iter().enumerate() {
        best = better_pair::<P>(best, row_pair::<O, P>(orders, place, order, price));
    }
    best.map(|pair| (pair.buy.place, pair.sell.place))
}
