ghost use Rattle.std.specs.Prelude.{◌≡◌, length, IfOk};
ghost use Rattle.definitions.specs.Pairs.{Keeps};
ghost use Rattle.definitions.specs.Problems.{functions};
ghost use Rattle.definitions.specs.Sifting.{sifted as sifted_order};

use order_model::{Order, Pairs};
use sifting::laws::diagrams_have_their_problems_tables;
use sifting::{Manager, Sifted};
use std::alloc::{AllocError, Global};
use truth_table::{Tables, reduced_diagram};

/// The order after one pass of sifting from `start`.
pub(crate) fn sifted_from(
    alloc: Global,
    tables: &Tables,
    start: &Order,
    pairs: Pairs,
) -> Result<Sifted, AllocError>
    requires long { length start.now ≡ tables.now.inputs }
    requires inputs { pairs.inputs ≡ tables.now.inputs }
    requires kept { Keeps pairs.pairs start.now }
    ensures order { IfOk result
        (λ s. s.order ≡ sifted_order tables.now.inputs (functions tables.now) pairs.pairs
        start.now) }
    ensures problem { IfOk result (λ s. s.problem ≡ tables.now) }
    ensures pairs { IfOk result (λ s. s.pairs ≡ pairs.pairs) }
{
    diagrams_have_their_problems_tables(tables.problem());
    let diagram = reduced_diagram(alloc, tables, start)?;
    let manager = Manager::with_pairs(alloc, diagram, pairs)?;
    let sifted = manager.sift(alloc)?;
    Ok(sifted)
}

/// An order that keeps `pairs`, whose size bounds the search, sifted from the first such order.
pub(crate) fn bound_of(alloc: Global, tables: &Tables, pairs: Pairs) -> Result<Sifted, AllocError>
    requires { pairs.inputs ≡ tables.now.inputs }
    ensures problem { IfOk result (λ s. s.problem ≡ tables.now) }
    ensures pairs { IfOk result (λ s. s.pairs ≡ pairs.pairs) }
{
    let start = pairs.first_order(alloc)?;
    let bound = sifted_from(alloc, tables, &start, pairs)?.search_bound(alloc)?;
    Ok(bound)
}
