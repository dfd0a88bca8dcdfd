//! A problem instance: what a search is for.

ghost use Rattle.std.specs.Prelude.{◌≡◌, ◌+◌, ◌^◌, ◌<◌, ◌≤◌};

use crate::results::CellResult;
use order_model::{Limit, LowerBounds, Mask, Pairs, Problem};
use std::marker::Model;
use subset_layers::Cell;

/// The functions, the pairs that an order must keep, the upper bound on the size of an order, and
/// the rule of the lower bound on the nodes above a set. A set is pruned if its least cost plus
/// this lower bound exceeds the upper bound.
#[derive(Drop)]
pub struct Instance<'a> {
    problem: &'a Problem,
    pairs: &'a Pairs,
    limit: Limit,
    lower_bounds: LowerBounds<'a>,
}

impl<'a> Model for Instance<'a> {
    ghost use Rattle.layer_core.specs.Instances.{HoldsInstance, InstanceOf, instance_of};

    ghost Value = { InstanceOf };

    ghost view = { λ s. instance_of s.problem.now s.pairs.now s.limit };

    ghost invariant = { λ s. HoldsInstance
        (instance_of s.problem.now s.pairs.now s.limit) s.lower_bounds };
}

impl<'a> Instance<'a> {
    ghost use Rattle.definitions.specs.Orders.{members};
    ghost use Rattle.definitions.specs.Pairs.{is_lawful};
    ghost use Rattle.definitions.specs.Problems.{functions};
    ghost use Rattle.definitions.specs.Widths.{essential_mask};
    ghost use Rattle.definitions.specs.LowerBounds.{lower_bounds_with};
    ghost use Rattle.layer_core.specs.Pairing.{pair_of};
    ghost use Rattle.layer_core.specs.Instances.{cell_for, instance_of};

    /// `limit` has the upper bound and the rule of the lower bound.
    pub fn new(problem: &'a Problem, pairs: &'a Pairs, limit: Limit) -> Instance<'a>
        requires pairs { pairs.now.inputs ≡ problem.now.inputs }
        requires room { limit.bound + 1 < 2 ^ 32 }
        ensures { result ≡ instance_of problem.now pairs.now limit }
    {
        prove!(problem.inputs() <= 16);
        Instance {
            problem,
            pairs,
            limit,
            lower_bounds: LowerBounds::new(problem, limit.lower_bound),
        }
    }

    pub fn inputs(&self) -> u8
        ensures value { result ≡ self.now.problem.inputs }
        ensures some { 1 ≤ result }
        ensures few { result ≤ 16 }
    {
        self.problem.inputs()
    }

    pub fn problem(&self) -> &Problem
        ensures { result.now ≡ self.now.problem }
    {
        self.problem
    }

    pub fn pairs(&self) -> &Pairs
        ensures value { result.now ≡ self.now.pairs }
        ensures inputs { result.now.inputs ≡ self.now.problem.inputs }
    {
        self.pairs
    }

    /// Whether the set `mask` is lawful: for each pair (a, b), it has b if it has a.
    pub fn lawful(&self, mask: Mask) -> bool
        ensures { result ≡ is_lawful self.now.pairs.pairs (members self.now.problem.inputs mask) }
    {
        self.pairs.lawful(mask)
    }

    /// The upper bound, and the rule of the lower bound.
    pub fn limit(&self) -> Limit
        ensures value { result ≡ record
            { bound = self.now.bound; lower_bound = self.now.lower_bound } }
        ensures room { result.bound + 1 < 2 ^ 32 }
    {
        self.limit
    }

    pub fn lower_bounds(&self) -> &LowerBounds<'a>
        ensures { result.now ≡ lower_bounds_with self.now.problem self.now.lower_bound }
    {
        &self.lower_bounds
    }

    pub fn essential(&self) -> Mask
        ensures { result ≡ essential_mask self.now.problem.inputs (functions self.now.problem) }
    {
        self.lower_bounds.essential()
    }

    /// The set `mask` with `cell`, as a worker posts them to a board.
    pub fn result(&self, mask: Mask, cell: Cell) -> CellResult
        requires { pair_of cell ≡ cell_for self.now mask }
        ensures { result ≡ record { instance = self.now; mask = mask; cell = pair_of cell } }
    {
        CellResult::new(self.problem, self.limit, mask, cell, self.pairs)
    }
}
