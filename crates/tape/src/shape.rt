// The shape of a block: how many fills it has, and so where each entry stands and where the block ends.
ghost use Rattle.std.specs.Prelude.{◌≡◌, ◌<◌, ◌≤◌, MatchResult};
ghost use Rattle.tape.specs.declared.fault.BlockFault.TheVariants.{TooManyFills};
ghost use Rattle.tape.specs.Asked.{most_fills};
ghost use Rattle.tape.specs.Block.{block_length, what_at, who_at};

use crate::fault::BlockFault;

// The bytes of the sizes, of a who-entry and of a what-entry.
pub(crate) const SIZES: usize = 8;

pub(crate) const WHO: usize = 12;

pub(crate) const WHAT: usize = 8;

// The most fills of a block, and the bytes of a block of so many.
pub const MOST_FILLS: usize = 3_000;

pub const LONGEST_BLOCK: usize = SIZES + (WHO + WHAT) * MOST_FILLS;

#[derive(Clone, Copy)]
pub(crate) struct Shape {
    pub(crate) count: usize,
    ghost few: { count ≤ most_fills },
}

impl TryFrom<usize> for Shape {
    type Error = BlockFault;

    ghost try_from_gives = { λ n r. MatchResult r (λ s. s.count ≡ n) (λ f. (f ≡ TooManyFills) × (most_fills < n)) };

    fn try_from(count: usize) -> Result<Shape, BlockFault> {
        if MOST_FILLS < count {
            return Err(BlockFault::TooManyFills);
        }
        Ok(Shape { count })
    }
}

impl Shape {
    // Where the who-entry of the fill of that place, from 0, stands.
    pub(crate) fn who_at(self, place: usize) -> usize
        requires { place ≤ self.count }
        ensures { result ≡ who_at place }
    {
        SIZES + WHO * place
    }

    // Where its what-entry stands.
    pub(crate) fn what_at(self, place: usize) -> usize
        requires { place ≤ self.count }
        ensures { result ≡ what_at self.count place }
    {
        self.who_at(self.count) + WHAT * place
    }

    // How many bytes the block has.
    pub(crate) fn length(self) -> usize
        ensures { result ≡ block_length self.count }
    {
        self.what_at(self.count)
    }
}
