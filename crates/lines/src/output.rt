// The lines that the programs write.
ghost use Rattle.std.specs.Prelude.{Some};
ghost use Rattle.lines.specs.Output.{line_text};

use crate::fault::LineFault;
use base::Refusal;
use orders::trade::Fill;
use std::fmt;

#[derive(Clone, Copy, PartialEq, Eq, Debug)]
pub enum OutputLine {
    Fill(Fill),
    // A cancelled order, and the volume that it had left.
    Cancel { folio: u32, volume: u32 },
    Refused(LineFault),
    // A refusal that tells its place too.
    RefusedAt(Refusal),
    // An order that rests at the end, and what it has left.
    Left { folio: u32, left: u32 },
    // The last line, with a count.
    End(u64),
}

impl fmt::Display for OutputLine {
    ghost output = { λ l. Some (line_text l) };

    fn fmt<W: fmt::Write>(&self, f: &mut fmt::Formatter<W>) -> fmt::Result {
        match *self {
            OutputLine::Fill(fill) => {
                let (buyer, seller) = (fill.buyer, fill.seller);
                write!(
                    f,
                    "F {} {} {} {} {} {}",
                    fill.price, fill.volume, buyer.folio, seller.folio, buyer.house, seller.house
                )
            }
            OutputLine::Cancel { folio, volume } => write!(f, "K {folio} {volume}"),
            OutputLine::Refused(fault) => {
                let number = Refusal::from(fault).number;
                write!(f, "R {number}")
            }
            OutputLine::RefusedAt(Refusal { number, place, .. }) => write!(f, "R {number} {place}"),
            OutputLine::Left { folio, left } => write!(f, "L {folio} {left}"),
            OutputLine::End(n) => write!(f, "end {n}"),
        }
    }
}
