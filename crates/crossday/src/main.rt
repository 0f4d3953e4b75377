// crossday: one midpoint book for one day, over lines of standard input; answers on standard output.
#![tactic(auto)]

use dayrun::desk::Desk;
use dayrun::run::run_lines;
use lines::fault::LineFault;
use orders::trade::Fill;
use session::apply::{InputLine, LineAnswer, MidpointBook, apply_line};
use std::io;

// Every line is for the book.
#[derive(Drop)]
struct Crossing;

impl Desk for Crossing {
    fn apply(
        &mut self,
        book: &mut MidpointBook<'_>,
        line: InputLine<'_>,
        tape: &mut [Fill],
    ) -> Result<LineAnswer, LineFault> {
        apply_line(book, line, tape)
    }
}

fn main(rt: HostRuntime) -> io::Result<()> {
    run_lines(&mut Crossing, &rt)
}
