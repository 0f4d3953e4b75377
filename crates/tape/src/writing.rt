// Writing a block: the range of every entry, then the sizes, then the two arrays of entries.
ghost use Rattle.std.specs.Prelude.{◌≡◌, ◌+◌, ◌*◌, ◌<◌, ◌≤◌, ◌++◌, length};
ghost use Rattle.std.specs.List.{flat_map};
ghost use Rattle.base.specs.Bytes.{bytes2, bytes4};
ghost use Rattle.tape.specs.Block.{parties_entry};
ghost use Rattle.tape.specs.Entries.{entry_bytes, entry_size, judged};
ghost use Rattle.tape.specs.Written.{Written};

use crate::entry::Entry;
use crate::fault::BlockFault;
use crate::shape::{SIZES, Shape, WHAT, WHO};
use orders::trade::{Fill, Party};

// Is this entry of every fill in range?
fn judge(fills: &[Fill], shape: Shape, which: Entry) -> Result<(), BlockFault>
    requires { shape.count ≡ length fills.now }
    ensures { result ≡ judged which fills.now (length fills.now) }
{
    which.judge(shape, fills.iter().copied())
}

// The low two bytes of a number: all that a house needs.
fn low_bytes(number: u32) -> [u8; 2]
    ensures { result ≡ bytes2 number }
{
    ((number & 0xffff) as u16).to_be_bytes()
}

// Fills eight bytes with two numbers.
fn put_two(first: u32, second: u32, out: &mut [u8])
    requires { length out.old ≡ 8 }
    ensures { out.new ≡ bytes4 first ++ bytes4 second }
{
    out.copy_from_slice([first.to_be_bytes(), second.to_be_bytes()].as_flattened());
}

// Fills the bytes of an entry with who traded.
fn put_who(buyer: Party, seller: Party, out: &mut [u8])
    requires { length out.old ≡ 12 }
    ensures { out.new ≡ parties_entry buyer seller }
{
    let (folios, houses) = out.split_at_mut(8);
    put_two(buyer.folio, seller.folio, folios);
    houses.copy_from_slice([low_bytes(buyer.house), low_bytes(seller.house)].as_flattened());
}

impl Entry {
    // How many bytes it has.
    fn size(self) -> usize
        ensures { result ≡ entry_size self }
    {
        match self {
            Entry::Who => WHO,
            Entry::What => WHAT,
        }
    }

    // Fills the bytes of this entry of the fill.
    fn put(self, fill: &Fill, out: &mut [u8])
        requires { length out.old ≡ entry_size self }
        ensures { out.new ≡ entry_bytes self fill.now }
    {
        match self {
            Entry::Who => put_who(fill.buyer, fill.seller, out),
            Entry::What => put_two(fill.volume, fill.price, out),
        }
    }

    // Fills a part of a buffer with this entry of each fill.
    fn write(self, fills: &[Fill], part: &mut [u8])
        requires { length part.old ≡ entry_size self * length fills.now }
        ensures { part.new ≡ flat_map (entry_bytes self) fills.now }
    {
        let size = self.size();
        for (place, fill) in fills.iter().enumerate() {
            // By range: of parts lent by `chunks_exact_mut` a proof knows, once the loan is over, only their length.
            let at = size * place;
            self.put(fill, &mut part[at..at + size]);
        }
    }
}

// Writes the block of the fills at the buffer's front and answers its length. What is written is read back as the
// same fills. A refusal leaves the buffer as it was.
pub fn write_block(fills: &[Fill], buffer: &mut [u8]) -> Result<usize, BlockFault>
    ensures { Written fills.now buffer.old buffer.new result }
{
    let shape = Shape::try_from(fills.len())?;
    judge(fills, shape, Entry::Who)?;
    judge(fills, shape, Entry::What)?;
    let whats = shape.what_at(0);
    let end = shape.length();
    if buffer.len() < end {
        return Err(BlockFault::BufferTooShort);
    }
    put_two(shape.count as u32, end as u32, &mut buffer[0..SIZES]);
    Entry::Who.write(fills, &mut buffer[SIZES..whats]);
    Entry::What.write(fills, &mut buffer[whats..end]);
    Ok(end)
}
