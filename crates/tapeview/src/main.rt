// tapeview: a tape block on standard input, its fills on standard output.
#![tactic(auto)]

ghost use Rattle.std.specs.Prelude.{◌≤◌, IfOk};

use lines::output::OutputLine;
use orders::trade::Fill;
use std::io;
use std::io::{BufWriter, Read, Write};
use tape::reading::read_block;
use tape::shape::{LONGEST_BLOCK, MOST_FILLS};

// The longest block and one byte more: an input that fills all of it is too long, whatever follows.
const BYTES: usize = LONGEST_BLOCK + 1;

// Fills the buffer from the input, less at the input's end, and answers how many bytes it then holds.
// No `take` and `read_to_end`: the library promises no bound on what they read where a reader can't tell what remains.
fn read_up_to<R: Read>(input: &mut R, buffer: &mut [u8; BYTES]) -> io::Result<usize>
    ensures { IfOk result (λ held. held ≤ 60009) }
{
    let mut held = 0;
    while held < BYTES {
        let n = input.read(&mut buffer[held..BYTES])?;
        if n == 0 {
            break;
        }
        held += n;
    }
    Ok(held)
}

fn main(rt: HostRuntime) -> io::Result<()> {
    let mut bytes = [0; BYTES];
    let mut fills = [Fill::default(); MOST_FILLS];
    let held = read_up_to(&mut rt.stdin(), &mut bytes)?;
    let mut output = BufWriter::new(rt.alloc(), rt.stdout())?;
    match read_block(&bytes[..held], &mut fills) {
        Ok(count) => {
            // As in a day of lines: a public function for both would want a contract, and none can tell what is written.
            for fill in &fills[..count] {
                writeln!(output, "{}", OutputLine::Fill(*fill))?;
            }
            writeln!(output, "{}", OutputLine::End(count as u64))?;
        }
        Err(fault) => writeln!(output, "{}", OutputLine::RefusedAt(fault.into()))?,
    }
    output.flush()
}
