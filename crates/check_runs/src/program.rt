ghost use Rattle.command_line.specs.Lines.{texts};
ghost use Rattle.check_runs.specs.Judging.{OrdercheckEnds, Verdicts};
ghost use Rattle.outcomes.specs.Messages.{writer};
ghost use Rattle.outcomes.specs.Programs.{streams};

use crate::check_run::run_check;
use command_line::CheckLine;
use counted_io::{CountedWrite, Counting};
use outcomes::{Fault, Outcome, Program, write_fault, write_usage};
use std::fs;
use std::rt::Files;
use std::thread::Threads;

/// Opens the PLA file and then the certificate that `line` names, checks them, and writes the
/// verdict to `out`.
fn check_files<'a, R: Files + AllocGlobal + Threads + Sync, W: CountedWrite>(
    rt: &R,
    line: &CheckLine<'a>,
    out: &mut W,
) -> Outcome
    ensures { Verdicts (W.contents out.old) (W.contents out.new) result }
{
    let Ok(file) = fs::open(rt, line.file) else {
        return Outcome::Refused(Fault::Device);
    };
    let Ok(cert) = fs::open(rt, line.cert) else {
        return Outcome::Refused(Fault::Device);
    };
    let mut file = Counting::new(file);
    let mut cert = Counting::new(cert);
    run_check(rt, rt.alloc(), &mut file, &mut cert, out)
}

/// The program ordercheck, with the words after its name, `FILE CERT`. Returns the exit status: 0
/// if the certificate is valid, or help or the version was asked for, 1 if it is not valid, 2 for
/// refused words, 3 for a refused PLA file or certificate, 4 if memory is refused, 5 if a device
/// failed.
pub fn ordercheck<'a, R: Files + AllocGlobal + Threads + Sync, W: CountedWrite, E: CountedWrite>(
    rt: &R,
    words: &'a [&'a str],
    out: &mut W,
    err: &mut E,
) -> u8
    ensures { OrdercheckEnds (texts words.now) result
        (streams (W.contents out.old) (writer (E.contents err.old) (E.failures err.old)))
        (streams (W.contents out.new) (writer (E.contents err.new) (E.failures err.new))) }
{
    let line = match CheckLine::of_words(rt.alloc(), words) {
        Ok(line) => line,
        Err(usage) => return write_usage(rt.alloc(), Program::Ordercheck, &usage, out, err),
    };
    let outcome = check_files(rt, &line, out);
    if let Some(fault) = outcome.fault() {
        write_fault(err, Program::Ordercheck, fault);
    }
    outcome.status()
}
