//! minorder: the exact minimum variable order of a PLA file's shared decision diagram.
#![tactic(auto)]

use counted_io::{CountedWrite, Counting};
use outcomes::{occupy_closed_streams, texts_of, words_of_program};
use report::minorder;
use std::env::Env;
use std::process::ExitCode;
use std::rt::Files;
use std::thread::Threads;

/// Runs minorder with the words of the command line, and returns its exit status. The report goes
/// to `out`, messages to `err`. Err is the exit status if minorder can't be called: 2 if a word of
/// the command line isn't UTF-8, 4 if memory is refused.
fn minorder_status<R: Env + Files + AllocGlobal + Threads + Sync, W: CountedWrite, E: CountedWrite>(
    rt: &R,
    out: &mut W,
    err: &mut E,
) -> Result<u8, u8> {
    let _occupied = occupy_closed_streams(rt);
    let words = words_of_program(rt)?;
    let words = texts_of(rt.alloc(), &words)?;
    Ok(minorder(rt, &words, out, err))
}

/// Runs minorder with standard output and standard error, and ends with its exit status.
fn main(rt: HostRuntime) -> ExitCode {
    let mut out = Counting::new(rt.stdout());
    let mut err = Counting::new(rt.stderr());
    let status = match minorder_status(&rt, &mut out, &mut err) {
        Ok(status) | Err(status) => status,
    };
    ExitCode::from(status)
}
