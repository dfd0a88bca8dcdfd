//! The texts that answer a run: the report on the best order of a cover, beside the sifted and the
//! file order, and the certificate.

ghost use Rattle.std.specs.Prelude.{◌≡◌, ◌≤◌, IfOk, is_some, string_bytes};
ghost use Rattle.report.specs.Bests.{IsBestFor};
ghost use Rattle.report.specs.Found.{IsFound};
ghost use Rattle.report_texts.specs.Answers.{IsAnswer, IsCertified, IsCertifiedBy};
ghost use Rattle.report.specs.Planned.{ArePlanned};
ghost use Rattle.report_texts.specs.Texts.{report_parts};

use crate::best::Best;
use crate::search::{Found, search};
use crate::search_input::SearchInput;
use certificate::certificate_text;
use command_line::{Output, RunPlan};
use order_model::{Pairs, PairsFault, Problem, Workers};
use pla_reader::Cover;
use report_texts::{Report, RunTexts, report_text};
use std::alloc::{AllocError, Global};
use std::thread::Threads;
use truth_table::Tables;

/// The pairs that an order of `n` variables has to keep: those that `plan` lists, or none if it has
/// no list or only counts. Err if the list is refused: it isn't of the form `2,0:1,0`, or it has a
/// variable that isn't below `n`, or no order keeps its pairs.
pub(crate) fn pairs_of<'a>(plan: &RunPlan<'a>, n: u8) -> Result<Pairs, PairsFault>
    requires some { 1 ≤ n }
    requires few { n ≤ 16 }
    ensures { ArePlanned plan.now n result }
{
    match (plan.output, plan.above) {
        (Output::Count, _) | (_, None) => Ok(Pairs::none(n)),
        (_, Some(list)) => Pairs::parse(list.as_bytes(), n),
    }
}

/// The text of the report on `found`: the order of the fewest nodes with its level counts and size,
/// the sifted order and its size, and the size under the file order. `input` has the names of
/// the variables. Requires `found` to be the result of the search for `input`.
fn report_of(alloc: Global, input: &SearchInput<'_>, found: &Found) -> Result<String, AllocError>
    requires { IsFound input.now found.now }
    ensures { IfOk result
        (λ text. string_bytes text ≡ report_parts input.now.cover.now input.now.tables.now
        found.now.best.optimum.order found.now.sifted found.now.sifted_size) }
{
    prove!(input.cover.inputs() <= 16);
    let optimum = &found.best.optimum;
    let report = Report {
        names: input.cover.input_names(),
        order: optimum.order.variables(),
        levels: &optimum.levels,
        sifted: found.sifted.variables(),
        sifted_size: found.sifted_size,
        file_size: found.file_size,
    };
    let text = report_text(alloc, &report)?;
    Ok(text)
}

/// The text of the certificate that the order of `best` has the fewest nodes among those that keep
/// `pairs`, or None if `best` has no cells. Requires `best` to be found for `problem` and `pairs`.
fn certificate_of(
    alloc: Global,
    problem: &Problem,
    pairs: &Pairs,
    best: Best,
) -> Result<Option<String>, AllocError>
    requires inputs { pairs.now.inputs ≡ problem.now.inputs }
    requires best { IsBestFor problem.now pairs.now.pairs (is_some best.cells) best }
    ensures { IfOk result
        (IsCertifiedBy problem.now pairs.now.pairs best.optimum.order (is_some best.cells)) }
{
    let Best { optimum, cells } = best;
    let Some(cells) = cells else {
        return Ok(None);
    };
    let text = certificate_text(alloc, problem, pairs, optimum, cells)?;
    Ok(Some(text))
}

/// Searches for the first order of the fewest nodes of the cover's functions, among the orders that
/// keep `pairs`, with `workers` workers, whose threads `rt` starts. Returns the report on this
/// order, and its certificate, which is None unless `certify` is true. Requires `pairs` to be of
/// the cover's inputs.
pub(crate) fn answer_texts<R: Threads + Sync>(
    rt: &R,
    alloc: Global,
    cover: &Cover,
    pairs: &Pairs,
    workers: Workers,
    certify: bool,
) -> Result<RunTexts, AllocError>
    requires { pairs.now.inputs ≡ cover.now.inputs }
    ensures report { IfOk result (λ t. IsAnswer cover.now pairs.now.pairs (string_bytes t.report)) }
    ensures certificate { IfOk result
        (λ t. IsCertified cover.now pairs.now.pairs certify t.certificate) }
{
    let tables = Tables::of_cover(rt, alloc, cover)?;
    let input = SearchInput {
        cover,
        tables: &tables,
        pairs,
        certify,
        workers,
    };
    let found = search(rt, alloc, &input)?;
    let report = report_of(alloc, &input, &found)?;
    let certificate = certificate_of(alloc, tables.problem(), pairs, found.best)?;
    Ok(RunTexts {
        report,
        certificate,
    })
}
