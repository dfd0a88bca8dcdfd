ghost use Rattle.std.specs.Prelude.{◌≡◌, ◌≢◌, string_bytes, IfOk, IfErr, OnOk};
ghost use Rattle.definitions.specs.KeptPairs.{CanBeKept};
ghost use Rattle.solutions.specs.Solutions.{IsSolution};
ghost use Rattle.minorder_c.specs.Answers.{AreTables, given, pairs_given};
ghost use Rattle.minorder_c.specs.Certified.{IsTextFor, IsCertificateText, IsCertifyStatus};
ghost use Rattle.minorder_c.specs.Rooms.{Holds, IsShort};
ghost use Rattle.minorder_c.specs.Statuses.{RefusesPairs, ShowsPairs, ShowsShape};

use crate::above::{AbovePair, kept_pairs};
use crate::arguments::{GivenTables, tables_of};
use crate::rooms::{SHORT_ROOM, put_front};
use crate::sifting_from::bound_of;
use crate::status::Refusal;
use certificate::certificate_text;
use order_model::Pairs;
use order_solve::{Solution, solve_alone};
use small_search::{is_small, solve};
use std::alloc::{AllocError, Global};
use truth_table::Tables;

/// The first order of the fewest nodes, and the cells of its certificate. A sifted order bounds the
/// search, unless there are at most 10 inputs and 8,192 table entries (`is_small`).
fn solution(alloc: Global, tables: &Tables, pairs: Pairs) -> Result<Solution, AllocError>
    requires { pairs.inputs ≡ tables.now.inputs }
    ensures { IfOk result (IsSolution tables.now pairs.pairs) }
{
    if is_small(tables.problem()) {
        let solution = solve(alloc, tables.problem(), &pairs)?;
        return Ok(solution);
    }
    let bound = bound_of(alloc, tables, pairs)?;
    let solution = solve_alone(alloc, tables.problem(), bound)?;
    Ok(solution)
}

fn text_of(alloc: Global, tables: &Tables, pairs: Pairs) -> Result<String, AllocError>
    requires { pairs.inputs ≡ tables.now.inputs }
    ensures { IfOk result
        (λ text. IsCertificateText tables.now pairs.pairs (string_bytes text)) }
{
    let kept = pairs.copied();
    let problem = tables.problem();
    let Solution { optimum, cells } = solution(alloc, tables, pairs)?;
    let text = certificate_text(alloc, problem, &kept, optimum, cells)?;
    Ok(text)
}

/// The certificate's text for the truth tables `given`, under the pairs `above`.
fn certificate(alloc: Global, given: &GivenTables, above: &[AbovePair]) -> Result<String, Refusal>
    ensures shape { OnOk result (AreTables given.now) }
    ensures kept { OnOk result (CanBeKept given.now.inputs (pairs_given above.now)) }
    ensures text { IfOk result (λ text. IsTextFor given.now above.now (string_bytes text)) }
    ensures refused { IfErr result
        (RefusesPairs (AreTables given.now) (CanBeKept given.now.inputs (pairs_given above.now))) }
{
    let tables = tables_of(alloc, given)?;
    let pairs = kept_pairs(alloc, above, given.inputs as u8)?;
    let text = text_of(alloc, &tables, pairs)?;
    Ok(text)
}

/// Writes the certificate of the first order of the fewest nodes to the front of `text`, and its
/// length to `size`. Returns 7 if `text` is too short; then only `size` is written.
#[unsafe(no_mangle)]
pub extern "C" fn minorder_certify_with_pairs(
    alloc: Global,
    tables: &[u64],
    inputs: u32,
    outputs: u32,
    above: &[AbovePair],
    text: &mut [u8],
    size: &mut usize,
) -> u32
    ensures status { IsCertifyStatus result }
    ensures shape { ShowsShape (AreTables (given tables.entry inputs outputs)) result }
    ensures kept { ShowsPairs (CanBeKept inputs (pairs_given above.now)) result }
    ensures written { result ≡ 0 →
        Holds (IsTextFor (given tables.entry inputs outputs) above.now) text.old text.new size.new }
    ensures short { result ≡ 7 →
        IsShort (IsTextFor (given tables.entry inputs outputs) above.now) text.old size.new }
    ensures stays { result ≢ 0 → text.new ≡ text.old }
    ensures refused { result ≢ 0 → result ≢ 7 → size.new ≡ size.old }
{
    let given = GivenTables::of(tables, inputs, outputs);
    match certificate(alloc, &given, above) {
        Ok(made) => {
            let bytes = made.as_bytes();
            *size = bytes.len();
            if text.len() < bytes.len() {
                return SHORT_ROOM;
            }
            put_front(text, bytes);
            0
        }
        Err(refusal) => refusal.status(),
    }
}
