// The feed call.
ghost use Rattle.std.specs.Prelude.{◌≡◌};
ghost use Rattle.feed.specs.Feeding.{Feeds};

use crate::fault::QuoteFault;
use book::open::OpenBook;
use orders::order::Order;
use orders::priority::Priority;
use orders::trade::Fill;
use quotes::board::QuoteBoard;

// Takes the message at the front of the bytes: lays it on a copy of the quotes, puts the copy's midpoint in force, and
// only then replaces the quotes by the copy. Answers how many fills that made, and the bytes behind the message.
// The quotes and the book are no one struct, for they have two owners: a desk has the quotes, a day has the book.
pub fn feed<'b, O: Order, P: Priority>(
    board: &mut QuoteBoard,
    book: &mut OpenBook<'_, O, P>,
    bytes: &'b [u8],
    tape: &mut [Fill],
) -> Result<(usize, &'b [u8]), QuoteFault>
    ensures { Feeds O.kind P.ranking bytes.now board.old board.new book.old book.new tape.old tape.new result }
{
    let (copy, rest) = board.lay(bytes)?;
    let fills = book.set_price(copy.midpoint(), tape)?;
    board.replace(copy);
    Ok((fills, rest))
}
