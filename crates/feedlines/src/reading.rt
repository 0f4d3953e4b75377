// The lines of a day with quotes: those of a day of orders, but for prices, and messages.
ghost use Rattle.std.specs.Prelude.{◌++◌, codes};
ghost use Rattle.feedlines.specs.Lines.{ReadsAs};

use crate::digits::read_digits;
use kinds::midpoint::MidpointOrder;
use lines::reading::read_line;
use quotes::message::MESSAGE;
use rules::call::Call;

// An enum of its own and no `Result`: both are lines that were read.
#[derive(Clone, Copy, PartialEq, Eq, Debug)]
pub enum FeedLine {
    // An entry, a cancel or a cross.
    Order(Call<MidpointOrder>),
    // A message about a quote.
    Quote([u8; MESSAGE]),
}

// What stands behind `Q`: a space and the digits of a message.
fn read_quote(fields: &[u8]) -> Option<FeedLine>
    ensures { ReadsAs (codes "Q" ++ fields.now) result }
{
    read_digits(fields.strip_prefix(b" ")?).map(FeedLine::Quote)
}

// What a line writes; none where it is none of the forms. A price is none of them.
pub fn read_feed_line(line: &[u8]) -> Option<FeedLine>
    ensures { ReadsAs line.now result }
{
    let (letter, fields) = line.split_first()?;
    match *letter as char {
        'Q' => read_quote(fields),
        'P' => None,
        _ => read_line(line).map(FeedLine::Order),
    }
}
