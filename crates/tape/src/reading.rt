// Reading a block: its sizes, then the range of every entry, then the fills.
ghost use Rattle.std.specs.Prelude.{◌≡◌, ◌+◌, ◌<◌, ◌≤◌, length, take, drop, MatchResult};
ghost use Rattle.tape.specs.Asked.{fills_in};
ghost use Rattle.tape.specs.Block.{block_length, fill_at};
ghost use Rattle.tape.specs.Entries.{judged};
ghost use Rattle.tape.specs.Read.{MisSized, Read, Sized};

use crate::entry::Entry;
use crate::fault::BlockFault;
use crate::shape::Shape;
use orders::trade::{Fill, Party};

// Bytes that are as long as their sizes tell.
#[derive(Clone, Copy)]
struct Block<'a> {
    bytes: &'a [u8],
    shape: Shape,
    ghost long: { length bytes.now ≡ block_length shape.count },
}

impl<'a> TryFrom<&'a [u8]> for Block<'a> {
    type Error = BlockFault;

    ghost try_from_gives = { λ bs r. MatchResult r (λ b. (b.bytes.now ≡ bs.now) × Sized bs.now b.shape.count) (λ f. MisSized bs.now f) };

    fn try_from(bytes: &'a [u8]) -> Result<Block<'a>, BlockFault> {
        let &[c0, c1, c2, c3, l0, l1, l2, l3, ..] = bytes else {
            return Err(BlockFault::TooShort);
        };
        let shape = Shape::try_from(u32::from_be_bytes([c0, c1, c2, c3]) as usize)?;
        let length = shape.length();
        if u32::from_be_bytes([l0, l1, l2, l3]) as usize != length || bytes.len() != length {
            return Err(BlockFault::WrongLength);
        }
        Ok(Block { bytes, shape })
    }
}

impl Block<'_> {
    // The bytes from a place on, as many as the number has that is made of them.
    fn bytes_at<const N: usize>(&self, at: usize) -> [u8; N]
        requires { at + N ≤ length self.now.bytes.now }
        ensures { result ≡ take N (drop at self.now.bytes.now) }
    {
        *self.bytes[at..].first_chunk().unwrap()
    }

    // The fill of that place, from 0.
    fn fill(&self, place: usize) -> Fill
        requires { place < self.now.shape.count }
        ensures { result ≡ fill_at self.now.bytes.now self.now.shape.count place }
    {
        let who = self.shape.who_at(place);
        let what = self.shape.what_at(place);
        Fill {
            price: u32::from_be_bytes(self.bytes_at(what + 4)),
            volume: u32::from_be_bytes(self.bytes_at(what)),
            buyer: Party {
                house: u16::from_be_bytes(self.bytes_at(who + 8)).into(),
                folio: u32::from_be_bytes(self.bytes_at(who)),
            },
            seller: Party {
                house: u16::from_be_bytes(self.bytes_at(who + 10)).into(),
                folio: u32::from_be_bytes(self.bytes_at(who + 4)),
            },
        }
    }

    // Is this entry of every fill in range?
    fn judge(&self, which: Entry) -> Result<(), BlockFault>
        ensures { result ≡ judged which (fills_in self.now.bytes.now self.now.shape.count) self.now.shape.count }
    {
        which.judge(
            self.shape,
            (0..self.shape.count).map(|place| self.fill(place)),
        )
    }

    // Puts the fills at the list's front.
    fn put(&self, list: &mut [Fill])
        requires { self.now.shape.count ≤ length list.old }
        ensures front { take self.now.shape.count list.new ≡ fills_in self.now.bytes.now self.now.shape.count }
        ensures behind { drop self.now.shape.count list.new ≡ drop self.now.shape.count list.old }
    {
        for (place, slot) in list[..self.shape.count].iter_mut().enumerate() {
            *slot = self.fill(place);
        }
    }
}

// Reads the block that the bytes are, puts its fills at the list's front and answers their number. What is read is
// the one block of those fills. A refusal leaves the list as it was.
pub fn read_block(bytes: &[u8], list: &mut [Fill]) -> Result<usize, BlockFault>
    ensures { Read bytes.now list.old list.new result }
{
    let block = Block::try_from(bytes)?;
    block.judge(Entry::Who)?;
    block.judge(Entry::What)?;
    if list.len() < block.shape.count {
        return Err(BlockFault::ListTooShort);
    }
    block.put(list);
    Ok(block.shape.count)
}
