// Who applies a line to the book.
ghost use Rattle.std.specs.Prelude.{◌≡◌};
ghost use Rattle.book.specs.View.{places};

use lines::fault::LineFault;
use orders::trade::Fill;
use session::apply::{InputLine, LineAnswer, MidpointBook};

// A trait and no closure: that every call keeps the table's places is a law of each desk, which `run_lines` would otherwise have to ask of its callers.
pub trait Desk {
    // Applies one line, or refuses it at its number. The fills that it makes stand at the tape's front. The book keeps
    // the places of its table, so that at the end of the day a list of as many places holds all that is left.
    fn apply(
        &mut self,
        book: &mut MidpointBook<'_>,
        line: InputLine<'_>,
        tape: &mut [Fill],
    ) -> Result<LineAnswer, LineFault>
        ensures { places book.new ≡ places book.old };
}
