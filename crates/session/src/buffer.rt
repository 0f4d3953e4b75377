// The line that is being read from a stream of bytes.
ghost use Rattle.std.specs.Prelude.{◌≡◌, ◌≤◌, [], ◌∷◌, ◌++◌, length, take};

// A line has at most 80 bytes. One more is kept, so that a longer line stays too long for every form.
const KEPT: usize = 81;

// The first `len` bytes are kept. No `ArrayVec`, which cannot be copied, and a buffer can.
#[derive(Clone, Copy)]
pub struct LineBuffer {
    bytes: [u8; KEPT],
    len: usize,
    ghost within: { len ≤ 81 },
}

impl LineBuffer {
    ghost use Rattle.session.specs.Kept.{kept};

    // Nothing read yet.
    pub fn new() -> LineBuffer
        ensures { kept result ≡ [] }
    {
        LineBuffer {
            bytes: [0; KEPT],
            len: 0,
        }
    }

    // One byte more.
    pub fn push(&mut self, byte: u8)
        ensures { kept self.new ≡ take 81 (kept self.old ++ byte ∷ []) }
    {
        let at = self.len;
        if at < KEPT {
            self.bytes[at] = byte;
            self.len = at + 1;
        }
    }

    // The bytes so far, or the first 81 of them.
    pub fn line(&self) -> &[u8]
        ensures bytes { result.now ≡ kept self.now }
        ensures within { length result.now ≤ 81 }
    {
        &self.bytes[0..self.len]
    }

    // The next line begins.
    pub fn clear(&mut self)
        ensures { kept self.new ≡ [] }
    {
        self.len = 0;
    }
}
