// midpoint INSTRUMENT TYPE: a recording of Last Quote messages on standard input, the midpoint after each on
// standard output.
#![tactic(auto)]

ghost use Rattle.std.specs.Prelude.{◌≤◌, IfOk};

use arguments::run_on_board;
use quotes::answer::Answer;
use quotes::board::QuoteBoard;
use quotes::message::MESSAGE;
use std::io;
use std::io::{BufReader, BufWriter, Read, Write};
use std::process::ExitCode;

// Fills the buffer from the input, less at the input's end, and answers how many bytes it then holds.
// All answers are written before it waits for more input.
// No `take` and `read_to_end`: the library promises no bound on what they read where a reader can't tell what remains.
fn next_message<R: Read, W: Write + Drop>(
    input: &mut BufReader<R>,
    output: &mut BufWriter<W>,
    message: &mut [u8; MESSAGE],
) -> io::Result<usize>
    ensures { IfOk result (λ held. held ≤ 24) }
{
    let mut held = 0;
    while held < MESSAGE {
        if input.buffer().is_empty() {
            output.flush()?;
        }
        let n = input.read(&mut message[held..MESSAGE])?;
        if n == 0 {
            break;
        }
        held += n;
    }
    Ok(held)
}

fn run(rt: &HostRuntime, mut board: QuoteBoard) -> anyhow::Result<()> {
    let mut input = BufReader::new(rt.alloc(), rt.stdin())?;
    let mut output = BufWriter::new(rt.alloc(), rt.stdout())?;
    let mut message = [0; MESSAGE];
    let mut accepted = 0u64;
    // More messages than ever come: a loop with no end would want leave to wait for ever.
    for _ in 0..u64::MAX {
        let held = next_message(&mut input, &mut output, &mut message)?;
        if held == 0 {
            break;
        }
        let answer = board.receive(&message[..held]);
        if answer.is_ok() {
            accepted = accepted.saturating_add(1);
        }
        writeln!(output, "{}", Answer(answer))?;
    }
    writeln!(output, "end {accepted}")?;
    output.flush()?;
    Ok(())
}

fn main(rt: HostRuntime) -> anyhow::Result<ExitCode> {
    run_on_board(&rt, "midpoint", |board| run(&rt, board))
}
