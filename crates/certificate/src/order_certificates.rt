ghost use Rattle.std.specs.Prelude.{◌≡◌, IfOk, map, string_bytes};
ghost use Rattle.certificate.specs.Faults.{Spells};
ghost use Rattle.definitions.specs.Certificates.{certificate_of};
ghost use Rattle.definitions.specs.Listed.{listed};
ghost use Rattle.definitions.specs.Problems.{functions};
ghost use Rattle.order_model.specs.SizedOrders.{HasItsSize};

use crate::certificate::{Certificate, CertificateParts};
use crate::laws::orders_have_certificates;
use order_model::{ListedCell, Pairs, Problem, SizedOrder};
use std::alloc::{AllocError, Global};

/// The text, in format 2, of the certificate that the order in `found` has the fewest nodes, which
/// isn't tested. `cells` must have the sets to list: all lawful proper subsets of which the least
/// cost plus the number of essential variables outside is below the size in `found`.
pub fn certificate_text(
    alloc: Global,
    problem: &Problem,
    pairs: &Pairs,
    found: SizedOrder,
    cells: Vec<ListedCell>,
) -> Result<String, AllocError>
    requires inputs { pairs.now.inputs ≡ problem.now.inputs }
    requires found { HasItsSize problem.now found }
    requires cells { map listed cells.items
        ≡ (certificate_of problem.now.inputs (functions problem.now) pairs.now.pairs
        found.order).cells }
    ensures { IfOk result
        (λ text. Spells (string_bytes text)
        (certificate_of problem.now.inputs (functions problem.now) pairs.now.pairs found.order)) }
{
    prove!(pairs.count() <= 240);
    let inputs = pairs.inputs();
    let outputs = problem.outputs();
    orders_have_certificates();
    let order = found.order.variables().to_vec(alloc)?;
    let kept = pairs.to_vec(alloc)?;
    let parts = CertificateParts {
        inputs,
        outputs,
        order,
        levels: found.levels,
        total: found.total,
        pairs: Some(kept),
        cells,
    };
    match Certificate::from_parts(parts) {
        Some(cert) => cert.text(alloc),
        None => unreachable!(),
    }
}
