// What is written: the answer to a line, and at the end the orders that are left.
ghost use Rattle.std.specs.Prelude.{◌≤◌, length};
ghost use Rattle.book.specs.Closed.{resting_orders};

use book::closed::{ClosedBook, Unfilled};
use book::open::CAPACITY;
use kinds::midpoint::MidpointOrder;
use lines::fault::LineFault;
use lines::output::OutputLine;
use orders::trade::Fill;
use quotes::answer::Answer;
use session::apply::LineAnswer;
use std::io;
use std::io::{BufWriter, Write};

// A line for each fill at the tape's front.
// No plainer as `&tape[..fills]`: that there are as many would be one law more of each desk, told on through four contracts.
fn write_fills<W: Write + Drop>(
    output: &mut BufWriter<W>,
    tape: &[Fill],
    fills: usize,
) -> io::Result<()> {
    for fill in tape.iter().take(fills) {
        writeln!(output, "{}", OutputLine::Fill(*fill))?;
    }
    Ok(())
}

// The lines of an answer: a changed midpoint and the fills, a cancelled order, or a refusal.
// No method of `Day`, which is no plainer: it would bring the desk and the book along, and what is written knows neither.
pub(crate) fn write_answer<W: Write + Drop>(
    output: &mut BufWriter<W>,
    answer: Result<LineAnswer, LineFault>,
    tape: &[Fill],
) -> io::Result<()> {
    match answer {
        Ok(LineAnswer::Filled(fills)) => write_fills(output, tape, fills),
        Ok(LineAnswer::Cancelled { folio, volume }) => {
            writeln!(output, "{}", OutputLine::Cancel { folio, volume })
        }
        Ok(
            LineAnswer::Quoted {
                before: _,
                midpoint,
                changed,
                fills,
            },
        ) => {
            if changed {
                writeln!(output, "{}", Answer(Ok(midpoint)))?;
            }
            write_fills(output, tape, fills)
        }
        Err(fault) => writeln!(output, "{}", OutputLine::Refused(fault)),
    }
}

// The orders that are left, and their number. No more rest than the table has places, so the list is long enough.
pub(crate) fn write_unfilled<W: Write + Drop>(
    output: &mut BufWriter<W>,
    book: &ClosedBook<'_, MidpointOrder>,
) -> io::Result<()>
    requires { length (resting_orders book.now) ≤ 512 }
{
    let mut list = [Unfilled::default(); CAPACITY];
    let count = book.unfilled(&mut list).unwrap();
    for order in &list[..count] {
        let (folio, left) = (order.folio, order.left);
        writeln!(output, "{}", OutputLine::Left { folio, left })?;
    }
    writeln!(output, "{}", OutputLine::End(count as u64))?;
    output.flush()
}
