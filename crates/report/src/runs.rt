//! Runs of minorder, over any reader and writers.

ghost use Rattle.std.specs.Prelude.{◌≡◌, [], ◌∷◌, IfOk, None, Ok, option_map, string_bytes};
ghost use Rattle.report.specs.Planned.{ArePlanned};
ghost use Rattle.report_texts.specs.Answers.{HasCertificate, IsTextOf};
ghost use Rattle.report_texts.specs.Runs.{RunEnds, devices, failures_in, held};

use crate::all_orders::{orders_answer, sizes_answer};
use crate::answers::{answer_texts, pairs_of};
use command_line::{Output, RunPlan};
use counted_io::{CountedRead, CountedWrite};
use order_counts::ByWorkers;
use order_model::Pairs;
use outcomes::{Fault, Outcome};
use pla_reader::{Cover, read_cover};
use report_texts::{RunTexts, counts_of, write_texts};
use std::alloc::{AllocError, Global};
use std::thread::Threads;

/// `text` as the only text of a run.
fn alone(text: Result<String, AllocError>) -> Result<RunTexts, AllocError>
    ensures ok { IfOk result (λ t. (text ≡ Ok t.report) × (t.certificate ≡ None)) }
{
    Ok(RunTexts {
        report: text?,
        certificate: None,
    })
}

/// The texts of a run on `cover`, whose orders keep `pairs`: what the plan prints and, beside a
/// report and if `certify` is true, the certificate of its order.
fn texts_for<'a, R: Threads + Sync>(
    rt: &R,
    alloc: Global,
    plan: &RunPlan<'a>,
    cover: &Cover,
    pairs: &Pairs,
    certify: bool,
) -> Result<RunTexts, AllocError>
    requires { ArePlanned plan.now cover.now.inputs (Ok pairs.now) }
    ensures report { IfOk result (λ t. IsTextOf plan.now cover.now (string_bytes t.report)) }
    ensures certificate { IfOk result
        (λ t. HasCertificate plan.now.output plan.now.above cover.now certify t.certificate) }
{
    match plan.output {
        Output::Report => answer_texts(rt, alloc, cover, pairs, plan.workers, certify),
        Output::Count => alone(counts_of(rt, alloc, cover)),
        Output::Orders => alone(orders_answer(rt, alloc, cover, pairs, plan.workers)),
        Output::Sizes => {
            let workers = plan.workers;
            alone(sizes_answer(&ByWorkers { rt, workers }, alloc, cover, pairs))
        }
    }
}

/// Reads the PLA file `file` to its end, makes all texts of the run, then writes them, and returns
/// how the run ended. What the plan prints goes to `out`. A report's certificate, that of the first
/// order of the fewest nodes among those that keep the plan's pairs, goes to `cert` before it,
/// unless that is None.
pub fn run<'a, R: Threads + Sync, F: CountedRead, W: CountedWrite, C: CountedWrite>(
    rt: &R,
    alloc: Global,
    plan: &RunPlan<'a>,
    file: &mut F,
    out: &mut W,
    cert: &mut Option<C>,
) -> Outcome
    ensures { RunEnds plan.now (F.remaining file.old)
        (devices (held (W.contents out.old) (option_map C.contents cert.old))
        (F.failures file.old ∷ W.failures out.old ∷ failures_in C.failures cert.old ∷ []))
        (devices (held (W.contents out.new) (option_map C.contents cert.new))
        (F.failures file.new ∷ W.failures out.new ∷ failures_in C.failures cert.new ∷ [])) result }
{
    let cover = match read_cover(alloc, file) {
        Ok(cover) => cover,
        Err(error) => return Outcome::Refused(Fault::from(error)),
    };
    let pairs = match pairs_of(plan, cover.inputs()) {
        Ok(pairs) => pairs,
        Err(fault) => return Outcome::Refused(Fault::Pairs(fault)),
    };
    let texts = match texts_for(rt, alloc, plan, &cover, &pairs, cert.is_some()) {
        Ok(texts) => texts,
        Err(_) => return Outcome::Refused(Fault::OutOfMemory),
    };
    write_texts(&texts, out, cert)
}
