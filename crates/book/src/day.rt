// A whole day of calls on one book.
ghost use Rattle.std.specs.Prelude.{◌≡◌, length};
ghost use Rattle.book.specs.Run.{Ran, told_fills};
ghost use Rattle.book.specs.View.{places};

use crate::open::OpenBook;
use orders::order::Order;
use orders::priority::Priority;
use orders::trade::Fill;
use rules::call::{Answer, Call};
use rules::fault::BookFault;

// What a call answers.
pub type Reply = Result<Answer, BookFault>;

// The book after a day, and how many fills the day made.
// No Result of both: the book comes back also where no call was made, or its caller would lose the lent table.
pub struct DayRun<'a, O, P> {
    pub book: OpenBook<'a, O, P>,
    pub fills: Result<usize, BookFault>,
}

// How many fills an answer tells.
fn fills_told(reply: &Reply) -> usize
    ensures { result ≡ told_fills reply.now }
{
    match reply {
        Ok(Answer::Filled(n)) => *n,
        _ => 0,
    }
}

// Makes the calls one after the other on a new book over the table, each with what is left of the tape. The answers
// stand at the front of the replies, and the fills of all calls at the tape's front. Where there is no place for each
// answer no call is made.
pub fn run_day<'a, O: Order, P: Priority>(
    table: &'a mut [O],
    calls: &[Call<O>],
    replies: &mut [Reply],
    tape: &mut [Fill],
) -> DayRun<'a, O, P>
    ensures ran { Ran O.kind P.ranking calls.now replies.old tape.old result.book replies.new tape.new result.fills }
    ensures long { places result.book ≡ length table.old }
    ensures lent { result.book.table.ghost_name ≡ table.entry.ghost_name }
{
    let mut book: OpenBook<'a, O, P> = OpenBook::new(table);
    if replies.len() < calls.len() {
        return DayRun {
            book,
            fills: Err(BookFault::ListTooShort),
        };
    }
    let mut used = 0;
    // By place, as `write_unfilled`, where a zip with `iter_mut` was tried: the check then knows nothing of what was written.
    for (place, call) in calls.iter().enumerate() {
        let reply = book.apply(*call, &mut tape[used..]);
        used += fills_told(&reply);
        replies[place] = reply;
    }
    DayRun {
        book,
        fills: Ok(used),
    }
}
