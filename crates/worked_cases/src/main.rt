//! Carries out worked cases of both programs, and reports each call that does something else than
//! its case says. The words are a folder, which becomes the current one, and the names of files of
//! cases there. README.md in data/ has the format of these files.
#![tactic(auto)]

mod calls;
mod cases;

use anyhow::{Context, Result, ensure};
use calls::{Tally, carry_out};
use cases::read_cases;
use std::rt::Files;
use std::thread::Threads;
use std::{env, fs};

fn carry_out_file<R: Files + AllocGlobal + Threads + Sync + Print>(
    rt: &R,
    file: &str,
    tally: &mut Tally,
) -> Result<()> {
    let text = fs::read_to_string(rt, file).context(format_args!("reading {file}"))?;
    let cases = read_cases(rt, text.as_str())?;
    for case in &cases {
        carry_out(rt, case, tally)?;
    }
    Ok(())
}

/// Prints how many calls were made and how many differed; an error if any did.
fn main(rt: HostRuntime) -> Result<()> {
    let mut words = env::args(&rt)?.skip(1);
    let folder = words.next().context("the words are FOLDER FILE..")?;
    env::set_current_dir(&rt, folder)?;
    let mut tally = Tally::default();
    for file in words {
        carry_out_file(&rt, file.as_str(), &mut tally)?;
    }
    println!(rt; "{} calls, {} differ", tally.calls, tally.differ)?;
    ensure!(tally.differ == 0, "not all as worked out");
    Ok(())
}
