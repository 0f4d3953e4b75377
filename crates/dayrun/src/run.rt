// One midpoint book for one day, over lines of standard input; answers on standard output.
ghost use Rattle.std.specs.Prelude.{◌≡◌};
ghost use Rattle.book.specs.View.{places};

use crate::desk::Desk;
use crate::output::{write_answer, write_unfilled};
use book::open::{CAPACITY, OpenBook};
use kinds::midpoint::MidpointOrder;
use orders::trade::Fill;
use session::apply::{InputLine, MidpointBook};
use session::buffer::LineBuffer;
use std::io;
use std::io::{BufWriter, Read, Write};

// How many bytes are read at once.
const CHUNK: usize = 8192;

// The line in the making, and its number.
#[derive(Drop)]
struct Input {
    buffer: LineBuffer,
    number: u64,
}

impl Input {
    fn line(&self) -> InputLine<'_> {
        InputLine {
            bytes: self.buffer.line(),
            number: self.number,
        }
    }

    // The line is answered, and the next one begins.
    fn begin_next(&mut self) {
        self.buffer.clear();
        self.number = self.number.saturating_add(1);
    }
}

// The day as it runs. Its book keeps the places of its table.
struct Day<'d, 't, D, W: Write + Drop> {
    desk: &'d mut D,
    book: MidpointBook<'t>,
    tape: [Fill; CAPACITY],
    output: BufWriter<W>,
    ghost whole: { places book ≡ 512 },
}

impl<D: Desk, W: Write + Drop> Day<'_, '_, D, W> {
    fn answer(&mut self, line: InputLine<'_>) -> io::Result<()> {
        let answer = self.desk.apply(&mut self.book, line, &mut self.tape);
        write_answer(&mut self.output, answer, &self.tape)
    }

    // Answers every line of the input. All answers are written before it waits for more input.
    fn answer_all<R: Read>(&mut self, source: &mut R) -> io::Result<()> {
        let mut chunk = [0u8; CHUNK];
        let mut input = Input {
            buffer: LineBuffer::new(),
            number: 1,
        };
        // More reads than ever come: a loop with no end would want leave to wait for ever.
        for _ in 0..u64::MAX {
            self.output.flush()?;
            let held = source.read(&mut chunk)?;
            if held == 0 {
                break;
            }
            for byte in &chunk[..held] {
                if *byte == b'\n' {
                    self.answer(input.line())?;
                    input.begin_next();
                } else {
                    input.buffer.push(*byte);
                }
            }
        }
        // The last line may lack its end.
        if input.line().bytes.is_empty() {
            return Ok(());
        }
        self.answer(input.line())
    }
}

// The whole day: every line is applied by the desk and answered, then the book is closed, and what is left is listed.
// The book is closed and ended also where input or output fails; nothing is listed then.
pub fn run_lines<D: Desk>(desk: &mut D, rt: &HostRuntime) -> io::Result<()> {
    let output = BufWriter::new(rt.alloc(), rt.stdout())?;
    let mut table = [MidpointOrder::default(); CAPACITY];
    let book = OpenBook::new(&mut table);
    let mut day = Day {
        desk,
        book,
        tape: [Fill::default(); CAPACITY],
        output,
    };
    let mut source = rt.stdin();
    let answered = day.answer_all(&mut source);
    let Day {
        desk: _,
        book,
        tape: _,
        mut output,
    } = day;
    let closed = book.close();
    let ended = answered.and_then(|()| write_unfilled(&mut output, &closed));
    let _table = closed.end();
    ended
}
