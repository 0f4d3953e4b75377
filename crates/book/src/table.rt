// Work on the orders that rest.
ghost use Rattle.std.specs.Prelude.{◌≡◌, ◌≤◌, ◌==◌, map, length, take, drop, filter};
ghost use Rattle.std.specs.Option.{option_map};
ghost use Rattle.std.specs.List.{find};
ghost use Rattle.rules.specs.Calls.{other_folio};
ghost use Rattle.book.specs.Closed.{unfilled_of};

use crate::closed::Unfilled;
use matching::closing_up::close_up;
use orders::order::Order;
use orders::trade::Header;

// What the order with the folio shows.
pub(crate) fn find_folio<O: Order>(orders: &[O], folio: u32) -> Option<Header>
    ensures { result ≡ option_map O.kind.header (find (λ o. (O.kind.header o).party.folio == folio) orders.now) }
{
    orders
        .iter()
        .find(|order| order.header().party.folio == folio)
        .map(|order| order.header())
}

// Takes the order with the folio out and closes up. Answers how many then rest.
pub(crate) fn remove_folio<O: Order>(orders: &mut [O], folio: u32) -> usize
    ensures front { take result orders.new ≡ filter (other_folio O.kind folio) orders.old }
    ensures bound { result ≤ length orders.old }
{
    close_up(
        orders,
        |order| (order.header().party.folio != folio).then_some(*order),
    )
}

// Writes what the orders have left at the list's front.
pub(crate) fn write_unfilled<O: Order>(orders: &[O], list: &mut [Unfilled])
    requires { length orders.now ≤ length list.old }
    ensures front { take (length orders.now) list.new ≡ map (unfilled_of O.kind) orders.now }
    ensures behind { drop (length orders.now) list.new ≡ drop (length orders.now) list.old }
{
    // By place: tried as a zip with `iter_mut`, after which the check knows nothing of what was written.
    for (place, order) in orders.iter().enumerate() {
        let header = order.header();
        list[place] = Unfilled {
            folio: header.party.folio,
            left: header.left,
        };
    }
}
