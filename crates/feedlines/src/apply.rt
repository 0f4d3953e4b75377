// One line of a day with quotes applied to the quotes and the book.
ghost use Rattle.std.specs.Prelude.{◌≡◌};
ghost use Rattle.feedlines.specs.Applied.{FedLine, FeedApplies};

use crate::reading::{FeedLine, read_feed_line};
use feed::call::feed;
use lines::fault::{LineFault, LineReason};
use orders::trade::Fill;
use quotes::board::QuoteBoard;
use session::apply::{InputLine, LineAnswer, MidpointBook, make_call};

// Feeds the message of a line to the quotes and the book.
// Board and book are no one struct: they have two owners, a desk and its day, and of the calls only a message's uses both.
fn apply_message(
    board: &mut QuoteBoard,
    book: &mut MidpointBook<'_>,
    message: &[u8],
    number: u64,
    tape: &mut [Fill],
) -> Result<LineAnswer, LineFault>
    ensures { FedLine message.now number board.old board.new book.old book.new tape.old tape.new result }
{
    let before = board.midpoint();
    // Two steps, since the formatter breaks the one chain inside its closure.
    let fed = feed(board, book, message, tape);
    let (fills, _) = fed.map_err(|fault| LineReason::Quotes(fault).at(number))?;
    let midpoint = board.midpoint();
    Ok(LineAnswer::Quoted {
        before,
        midpoint,
        changed: before != midpoint,
        fills,
    })
}

// Makes the call that the line writes, or feeds its message. A line that is none of the forms, or whose call or
// message is refused, is refused at its number, and alters nothing.
pub fn apply_feed_line(
    board: &mut QuoteBoard,
    book: &mut MidpointBook<'_>,
    line: InputLine<'_>,
    tape: &mut [Fill],
) -> Result<LineAnswer, LineFault>
    ensures { FeedApplies line.entry.bytes.now line.entry.number board.old board.new book.old book.new tape.old tape.new result }
{
    match read_feed_line(line.bytes).ok_or(LineReason::NoForm.at(line.number))? {
        FeedLine::Order(call) => make_call(book, call, line.number, tape),
        FeedLine::Quote(message) => apply_message(board, book, &message, line.number, tape),
    }
}
