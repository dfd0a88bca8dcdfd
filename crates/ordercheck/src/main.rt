//! ordercheck: whether a certificate proves that, of the variable orders that keep its pairs, none
//! has fewer nodes for a PLA file's functions than its own.
#![tactic(auto)]

use check_runs::ordercheck;
use counted_io::{CountedWrite, Counting};
use outcomes::{occupy_closed_streams, texts_of, words_of_program};
use std::env::Env;
use std::process::ExitCode;
use std::rt::Files;
use std::thread::Threads;

/// Runs ordercheck with the words of the command line, and returns its exit status. Err is the
/// status if it can't be called: 2 if a word isn't UTF-8, 4 if memory is refused.
fn ordercheck_status<
    R: Env + Files + AllocGlobal + Threads + Sync,
    W: CountedWrite,
    E: CountedWrite,
>(rt: &R, out: &mut W, err: &mut E) -> Result<u8, u8> {
    let _occupied = occupy_closed_streams(rt);
    let words = words_of_program(rt)?;
    let words = texts_of(rt.alloc(), &words)?;
    Ok(ordercheck(rt, &words, out, err))
}

fn main(rt: HostRuntime) -> ExitCode {
    let mut out = Counting::new(rt.stdout());
    let mut err = Counting::new(rt.stderr());
    let status = match ordercheck_status(&rt, &mut out, &mut err) {
        Ok(status) | Err(status) => status,
    };
    ExitCode::from(status)
}
