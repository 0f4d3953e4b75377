// What the program answers to one message, and the line that says it.
ghost use Rattle.std.specs.Prelude.{Some};
ghost use Rattle.quotes.specs.Answer.{answer_text};

use crate::fault::MessageFault;
use base::Refusal;
use std::fmt;

// The midpoint after the message, or why the message is refused.
#[derive(Clone, Copy, PartialEq, Eq, Debug)]
pub struct Answer(pub Result<Option<u32>, MessageFault>);

impl fmt::Display for Answer {
    ghost output = { λ a. Some (answer_text a) };

    fn fmt<W: fmt::Write>(&self, f: &mut fmt::Formatter<W>) -> fmt::Result {
        match self.0 {
            Ok(Some(price)) => write!(f, "M {price}"),
            Ok(None) => write!(f, "M -"),
            Err(fault) => write!(f, "R {}", Refusal::from(fault).number),
        }
    }
}
