//! The checker of certificates, for callers that also want a certificate's total and pairs.

ghost use Rattle.std.specs.Prelude.{◌≡◌, ◌≢◌};
ghost use Rattle.minorder_c.specs.Answers.{AreTables, given};
ghost use Rattle.minorder_c.specs.Judged.{IsNoCertificate, IsTextStatus};
ghost use Rattle.minorder_c.specs.Stated.{AreFront, IsStated};
ghost use Rattle.minorder_c.specs.Statuses.{ShowsShape};

use crate::above::AbovePair;
use crate::arguments::GivenTables;
use crate::verdicts::{ReturnedVerdict, judgement_on, verdict_for_c};
use order_model::VarIx;
use std::alloc::Global;

/// Writes the first of `pairs` to `place`, as many as it has room for. The rest of it stays.
fn put_pairs(place: &mut [AbovePair], pairs: &[(VarIx, VarIx)])
    ensures { AreFront pairs.now place.old place.new }
{
    for i in 0..place.len().min(pairs.len()) {
        let (above, below) = pairs[i];
        place[i] = AbovePair { above, below };
    }
}

/// Writes the verdict on the text `certificate`, its total, the number of its pairs, and as many of
/// these as fit. Returns 0, whatever the verdict.
#[unsafe(no_mangle)]
pub extern "C" fn minorder_check_total_with_pairs(
    alloc: Global,
    tables: &[u64],
    inputs: u32,
    outputs: u32,
    certificate: &[u8],
    verdict: &mut ReturnedVerdict,
    total: &mut u32,
    pairs: &mut [AbovePair],
    count: &mut usize,
) -> u32
    ensures status { IsTextStatus result }
    ensures shape { ShowsShape (AreTables (given tables.entry inputs outputs)) result }
    ensures no_certificate { result ≡ 3 → IsNoCertificate certificate.now }
    ensures stated { result ≡ 0 →
        IsStated (given tables.entry inputs outputs) certificate.now verdict.new total.new pairs.old
        pairs.new count.new }
    ensures refused { result ≢ 0 →
        (verdict.new ≡ verdict.old) × (total.new ≡ total.old) × (pairs.new ≡ pairs.old)
        × (count.new ≡ count.old) }
{
    let given = GivenTables::of(tables, inputs, outputs);
    match judgement_on(alloc, &given, certificate) {
        Ok(found) => {
            *verdict = verdict_for_c(found.verdict);
            *total = found.certificate.total();
            *count = found.certificate.pairs().len();
            put_pairs(pairs, found.certificate.pairs());
            0
        }
        Err(refusal) => refusal.status(),
    }
}
