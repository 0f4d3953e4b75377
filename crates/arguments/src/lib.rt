// The arguments INSTRUMENT TYPE of the programs that watch the quotes of one instrument.
#![tactic(auto)]

ghost use Rattle.std.specs.Prelude.{◌≡◌, ◌⊎◌, Ok, IfOk};
ghost use Rattle.std.specs.Process.{exit_status};
ghost use Rattle.quotes.specs.declared.board.QuoteBoard.{QuoteBoard};

use quotes::board::QuoteBoard;
use std::env;
use std::process::ExitCode;

// The board that the two words name; none where they name none.
fn board_named(instrument: &str, security: &str) -> Option<QuoteBoard> {
    Some(QuoteBoard::new(instrument.parse().ok()?, security.parse().ok()?))
}

// The board that the two arguments name; none where they name none.
pub fn board_of(rt: &HostRuntime) -> anyhow::Result<Option<QuoteBoard>> {
    let mut args = env::args(rt)?;
    let _program = args.next();
    Ok(match (args.next(), args.next(), args.next()) {
        (Some(instrument), Some(security), None) => {
            board_named(instrument.as_str(), security.as_str())
        }
        _ => None,
    })
}

// Where the arguments name no board: tells on standard error how the program is called, and answers the status 1, with
// which `main` then ends.
pub fn refuse_arguments(rt: &HostRuntime, program: &str) -> anyhow::Result<ExitCode>
    ensures { IfOk result (λ code. exit_status code ≡ 1) }
{
    eprintln!(rt; "usage: {program} INSTRUMENT equity|sic|warrant|fixed")?;
    Ok(ExitCode::FAILURE)
}

// Runs on the board. A status tells that it ran to its end.
fn run_on<F: FnOnce(QuoteBoard) -> anyhow::Result<()>>(
    board: QuoteBoard,
    run: F,
) -> anyhow::Result<ExitCode>
    requires { F.IsAlwaysCallable run }
    ensures { IfOk result (λ code. F.post run board (Ok tt)) }
{
    run(board)?;
    Ok(ExitCode::SUCCESS)
}

// A program over the quotes of one instrument: runs on the board that the arguments name, or refuses them. Any status
// but 1 tells that it ran to its end.
pub fn run_on_board<F: FnOnce(QuoteBoard) -> anyhow::Result<()>>(
    rt: &HostRuntime,
    program: &str,
    run: F,
) -> anyhow::Result<ExitCode>
    requires { F.IsAlwaysCallable run }
    ensures { IfOk result (λ code. (exit_status code ≡ 1) ⊎ ((board : QuoteBoard) × F.post run board (Ok tt))) }
{
    match board_of(rt)? {
        Some(board) => run_on(board, run),
        None => refuse_arguments(rt, program),
    }
}
