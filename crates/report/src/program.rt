//! The program minorder: reads its command line, opens its files, and writes its messages.

ghost use Rattle.std.specs.Prelude.{None};
ghost use Rattle.command_line.specs.Lines.{texts};
ghost use Rattle.pla_reader.specs.Covers.{IsCover};
ghost use Rattle.report_texts.specs.Runs.{DeliversReport, IsHindered, MinorderEnds};
ghost use Rattle.outcomes.specs.Messages.{writer};
ghost use Rattle.outcomes.specs.Programs.{streams};

use crate::runs::run;
use command_line::{Line, Output};
use counted_io::{CountedWrite, Counting};
use outcomes::{Fault, Outcome, Program, write_fault, write_usage};
use std::fs;
use std::rt::Files;
use std::thread::Threads;

/// Opens the PLA file of `line`, creates the certificate's file if `line` names one and asks for a
/// report, and carries out the plan of `line`, whose report goes to `out`. Returns how the run
/// ended, which is `Refused` for `Fault::Device` if a file can't be opened or created.
fn run_on_files<'a, R: Files + AllocGlobal + Threads + Sync, W: CountedWrite>(
    rt: &R,
    line: &Line<'a>,
    out: &mut W,
) -> Outcome
    ensures report { DeliversReport line.now.plan IsCover (W.contents out.old) (W.contents out.new)
        result }
    ensures hindered { IsHindered line.now.plan IsCover result }
{
    let Ok(file) = fs::open(rt, line.file) else {
        return Outcome::Refused(Fault::Device);
    };
    let mut file = Counting::new(file);
    let mut cert: Option<Counting<R::File>> = None;
    if let Some(path) = line.cert
        && line.plan.output == Output::Report
    {
        let Ok(made) = fs::create(rt, path) else {
            return Outcome::Refused(Fault::Device);
        };
        cert = Some(Counting::new(made));
    }
    run(rt, rt.alloc(), &line.plan, &mut file, out, &mut cert)
}

/// The program minorder. `words`, those after its name, are `[--workers W] [--cert OUT] [--count |
/// --orders | --sizes] [--above LIST] FILE`. The text goes to `out`, messages to `err`. Returns the
/// exit status: 0 done, or help or the version was requested; 2 words refused; 3 FILE refused; 4
/// out of memory; 5 a device failed; 8 pairs refused. OUT is created, empty, after FILE is opened
/// and before it is read, but not with `--count`.
pub fn minorder<'a, R: Files + AllocGlobal + Threads + Sync, W: CountedWrite, E: CountedWrite>(
    rt: &R,
    words: &'a [&'a str],
    out: &mut W,
    err: &mut E,
) -> u8
    ensures { MinorderEnds (texts words.now) result
        (streams (W.contents out.old) (writer (E.contents err.old) (E.failures err.old)))
        (streams (W.contents out.new) (writer (E.contents err.new) (E.failures err.new))) }
{
    let line = match Line::of_words(rt.alloc(), words) {
        Ok(line) => line,
        Err(usage) => return write_usage(rt.alloc(), Program::Minorder, &usage, out, err),
    };
    let outcome = run_on_files(rt, &line, out);
    if let Some(fault) = outcome.fault() {
        write_fault(err, Program::Minorder, fault);
    }
    outcome.status()
}
