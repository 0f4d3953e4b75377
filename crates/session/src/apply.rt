// One line applied to the book.
ghost use Rattle.std.specs.Prelude.{◌≡◌};
ghost use Rattle.session.specs.Applied.{Applies, Makes, folio_of, line_answer};

use book::open::OpenBook;
use kinds::midpoint::MidpointOrder;
use kinds::priorities::VolumePriority;
use lines::fault::{LineFault, LineReason};
use lines::reading::read_line;
use orders::trade::Fill;
use rules::call::{Answer, Call};

// A midpoint book ranks by volume.
pub type MidpointBook<'a> = OpenBook<'a, MidpointOrder, VolumePriority>;

// A line of the input, and its number there.
#[derive(Clone, Copy, Debug, PartialEq, Eq)]
pub struct InputLine<'a> {
    pub bytes: &'a [u8],
    pub number: u64,
}

// What an accepted line answers.
#[derive(Clone, Copy, Debug, PartialEq, Eq)]
pub enum LineAnswer {
    // How many fills stand at the tape's front.
    Filled(usize),
    // The cancelled order, and the volume that it had left.
    Cancelled {
        folio: u32,
        volume: u32,
    },
    // The midpoints before and after a quote, whether they differ, and how many fills stand at the tape's front.
    Quoted {
        before: Option<u32>,
        midpoint: Option<u32>,
        changed: bool,
        fills: usize,
    },
}

// The folio that a call names, if it names one.
// 0 for a price, and never told, since only a cancel's folio is: an `Option` would only be opened again with this 0.
fn folio_of(call: &Call<MidpointOrder>) -> u32
    ensures { result ≡ folio_of call.now }
{
    match call {
        Call::Enter(order) => order.header.party.folio,
        Call::Cancel(party) => party.folio,
        Call::Price(_) => 0,
        Call::Cross { party, volume: _ } => party.folio,
    }
}

// By a function of both: a `From` would want the pair in one value, which is no plainer.
fn answer_of(call: &Call<MidpointOrder>, answer: Answer) -> LineAnswer
    ensures { result ≡ line_answer call.now answer }
{
    match answer {
        Answer::Filled(fills) => LineAnswer::Filled(fills),
        Answer::Cancelled(volume) => LineAnswer::Cancelled {
            folio: folio_of(call),
            volume,
        },
    }
}

// Makes the call of a line. A call that the book refuses is refused at the line's number, and alters nothing.
// Book and tape are no one struct: the tape is the caller's, lent to one call, and a struct would hold it as long as the book.
pub fn make_call(
    book: &mut MidpointBook<'_>,
    call: Call<MidpointOrder>,
    number: u64,
    tape: &mut [Fill],
) -> Result<LineAnswer, LineFault>
    ensures { Makes call number book.old tape.old book.new tape.new result }
{
    let answer = book
        .apply(call, tape)
        .map_err(|fault| LineReason::Book(fault).at(number))?;
    Ok(answer_of(&call, answer))
}

// Makes the call that the line writes. A line that is none of the forms, or whose call the book refuses, is refused
// at its number, and alters nothing.
pub fn apply_line(
    book: &mut MidpointBook<'_>,
    line: InputLine<'_>,
    tape: &mut [Fill],
) -> Result<LineAnswer, LineFault>
    ensures { Applies line.entry.bytes.now line.entry.number book.old tape.old book.new tape.new result }
{
    let call = read_line(line.bytes).ok_or(LineReason::NoForm.at(line.number))?;
    make_call(book, call, line.number, tape)
}
