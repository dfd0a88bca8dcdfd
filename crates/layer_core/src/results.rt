//! Cells that are known to be those of the definition.

ghost use Rattle.std.specs.Prelude.{◌≡◌, ◌<◌, ◌^◌, ◌-◌};

use order_model::{Limit, Mask, Pairs, Problem};
use std::marker::Model;
use std::snapshot::Snapshot;
use subset_layers::Cell;

/// A mask with its cell, which is always the one that the definition gives for the problem, the
/// pairs and the limit. Only contracts see these.
#[derive(Drop)]
pub struct CellResult {
    mask: Mask,
    cell: Cell,
    problem: Snapshot<Problem>,
    pairs: Snapshot<Pairs>,
    limit: Snapshot<Limit>,
}

impl Model for CellResult {
    ghost use Rattle.layer_core.specs.Instances.{ResultOf};

    ghost Value = { ResultOf };

    ghost use Rattle.layer_core.specs.Results.{result_shown, IsResult};

    ghost view = { result_shown };

    ghost invariant = { IsResult };
}

impl CellResult {
    ghost use Rattle.layer_core.specs.Instances.{cell_for, instance_of};
    ghost use Rattle.layer_core.specs.Pairing.{pair_of};

    pub fn new(problem: &Problem, limit: Limit, mask: Mask, cell: Cell, pairs: &Pairs) -> CellResult
        requires bound { limit.bound < 2 ^ 32 - 1 }
        requires cell { pair_of cell ≡ cell_for (instance_of problem.now pairs.now limit) mask }
        ensures { result ≡ record {
          instance = instance_of problem.now pairs.now limit;
          mask = mask;
          cell = pair_of cell;
        } }
    {
        prove!(problem.inputs() <= 16);
        CellResult {
            mask,
            cell,
            problem: Snapshot::of(problem),
            pairs: Snapshot::of(pairs),
            limit: Snapshot::of(&limit),
        }
    }

    pub fn mask(&self) -> Mask
        ensures { result ≡ self.now.mask }
    {
        self.mask
    }

    pub fn cell(&self) -> Cell
        ensures value { pair_of result ≡ self.now.cell }
        ensures variable { self.now.cell.1 < 32 }
        ensures right { self.now.cell ≡ cell_for self.now.instance self.now.mask }
    {
        self.cell
    }
}
