// feedday INSTRUMENT TYPE: one midpoint book for one day, over lines of orders and quotes on standard input; answers on
// standard output.
#![tactic(auto)]

use arguments::run_on_board;
use dayrun::desk::Desk;
use dayrun::run::run_lines;
use feedlines::apply::apply_feed_line;
use lines::fault::LineFault;
use orders::trade::Fill;
use quotes::board::QuoteBoard;
use session::apply::{InputLine, LineAnswer, MidpointBook};
use std::process::ExitCode;

// Orders are for the book, and quotes for the board and the book.
#[derive(Drop)]
struct Feeding {
    board: QuoteBoard,
}

impl Desk for Feeding {
    fn apply(
        &mut self,
        book: &mut MidpointBook<'_>,
        line: InputLine<'_>,
        tape: &mut [Fill],
    ) -> Result<LineAnswer, LineFault> {
        apply_feed_line(&mut self.board, book, line, tape)
    }
}

fn main(rt: HostRuntime) -> anyhow::Result<ExitCode> {
    run_on_board(&rt, "feedday", |board| {
        run_lines(&mut Feeding { board }, &rt)?;
        Ok(())
    })
}
