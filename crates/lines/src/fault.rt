// Why a line is refused.
ghost use Rattle.std.specs.Prelude.{◌≡◌};
ghost use Rattle.lines.specs.Faults.{refusal, fault_at};

use base::{Layer, Refusal};
use feed::fault::QuoteFault;
use rules::fault::BookFault;

#[derive(Clone, Copy, PartialEq, Eq, Debug)]
pub enum LineReason {
    // The line is none of the forms.
    NoForm,
    // The line's call was refused by the book.
    Book(BookFault),
    // The line's message was refused by the quotes.
    Quotes(QuoteFault),
}

impl LineReason {
    // The fault of the line with this number.
    pub fn at(self, line: u64) -> LineFault
        ensures { result ≡ fault_at line self }
    {
        LineFault { line, reason: self }
    }
}

#[derive(Clone, Copy, PartialEq, Eq, Debug)]
pub struct LineFault {
    // The line's number in its input.
    pub line: u64,
    pub reason: LineReason,
}

// The number of the book or of the quotes is passed on; the place is the line's number. No twin of the other layers': a table of its own enum.
impl From<LineFault> for Refusal {
    ghost from_gives = { λ fault told. told ≡ refusal fault };

    fn from(fault: LineFault) -> Refusal {
        let number = match fault.reason {
            LineReason::NoForm => 27,
            LineReason::Book(inside) => Refusal::from(inside).number,
            LineReason::Quotes(inside) => Refusal::from(inside).number,
        };
        Refusal {
            number,
            layer: Layer::Line,
            place: fault.line,
        }
    }
}
