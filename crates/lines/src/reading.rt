// The lines that a day reads: one call over midpoint orders on each.
// A form is one word and at most five numbers, so its longest line has 58 bytes: a longer one is
// none of the forms, and needs no test of its own.
ghost use Rattle.std.specs.Prelude.{◌++◌, codes};
ghost use Rattle.lines.specs.Lines.{ReadsAs};

use crate::numbers::read_numbers;
use base::Side;
use kinds::midpoint::MidpointOrder;
use orders::trade::{Header, Party};
use rules::call::Call;

// What stands behind `E`: the side, and the order's numbers.
fn read_enter(fields: &[u8]) -> Option<Call<MidpointOrder>>
    ensures { ReadsAs (codes "E" ++ fields.now) result }
{
    let (letter, rest) = fields.strip_prefix(b" ")?.split_first()?;
    let side = Side::try_from(*letter).ok()?;
    let [house, folio, volume, protection, minimum] = read_numbers::<5>(rest)?;
    Some(Call::Enter(MidpointOrder {
        header: Header {
            side,
            party: Party { house, folio },
            entered: volume,
            left: volume,
        },
        protection,
        minimum,
    }))
}

// What stands behind `K`. It and the next two are no twins: what they share is `read_numbers`, generic in how many there are.
fn read_cancel(fields: &[u8]) -> Option<Call<MidpointOrder>>
    ensures { ReadsAs (codes "K" ++ fields.now) result }
{
    let [house, folio] = read_numbers::<2>(fields)?;
    Some(Call::Cancel(Party { house, folio }))
}

// What stands behind `X`.
fn read_cross(fields: &[u8]) -> Option<Call<MidpointOrder>>
    ensures { ReadsAs (codes "X" ++ fields.now) result }
{
    let [house, folio, volume] = read_numbers::<3>(fields)?;
    Some(Call::Cross {
        party: Party { house, folio },
        volume,
    })
}

// What stands behind `P`: a price, or a dash for none.
// A pattern for the dash: `fields == b" -"` is refused (a slice is not compared with an array), and `.as_slice()` makes it no plainer.
fn read_price(fields: &[u8]) -> Option<Call<MidpointOrder>>
    ensures { ReadsAs (codes "P" ++ fields.now) result }
{
    if let [b' ', b'-'] = fields {
        return Some(Call::Price(None));
    }
    let [price] = read_numbers::<1>(fields)?;
    Some(Call::Price(Some(price)))
}

// The call that a line writes; none where it is none of the forms.
pub fn read_line(line: &[u8]) -> Option<Call<MidpointOrder>>
    ensures { ReadsAs line.now result }
{
    let (letter, fields) = line.split_first()?;
    match *letter as char {
        'E' => read_enter(fields),
        'K' => read_cancel(fields),
        'X' => read_cross(fields),
        'P' => read_price(fields),
        _ => None,
    }
}
