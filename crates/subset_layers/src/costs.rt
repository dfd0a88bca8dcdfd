//! The cells and costs of a layer.

ghost use Rattle.std.specs.Prelude.{◌≡◌, ℕ, ◌+◌, ◌<◌, ◌≤◌, ◌↔◌, List, length, slice_index, IfOk, IfSome, IsSome, IsTrue};
ghost use Rattle.definitions.specs.Functions.{Function};
ghost use Rattle.definitions.specs.Orders.{has, members};
ghost use Rattle.definitions.specs.Pairs.{Pair};
ghost use Rattle.definitions.specs.declared.limits.LowerBound.{LowerBound};
ghost use Rattle.definitions.specs.Cells.{cell_of};
ghost use Rattle.subset_layers.specs.Layers as layers;

use crate::layers::Layer;
use order_model::{Mask, VarIx, next_member};
use std::alloc::{AllocError, Global};
use std::marker::Model;

/// The least cost of a set that is not empty, and the smallest variable that gives it on top. If
/// the set is pruned these are the bound plus 1 and the smallest member.
#[derive(Clone, Copy, Debug, PartialEq, Eq)]
pub struct Cell {
    pub cost: u32,
    pub variable: VarIx,
}

/// A finished layer. That of the empty set has no cell, and its cost is 0.
#[derive(Drop)]
pub struct Costs {
    layer: Layer,
    /// The cell of each set, in the layer's order.
    cells: Vec<Cell>,
}

impl Model for Costs {
    ghost use Rattle.subset_layers.specs.Costs.{CostsOf, HaveCells, costs_with};

    ghost Value = { CostsOf };

    ghost view = { λ c. costs_with c.layer c.cells.items };

    ghost invariant = { λ c. HaveCells (costs_with c.layer c.cells.items) };
}

impl Costs {
    ghost use Rattle.subset_layers.specs.Costs.{start_costs, costs_with, layer_of_costs, cell_at, cost_at, cost_without, as_pair, AreTrueCosts, AreTrueCells};

    /// The costs of the layer of the empty set.
    pub fn start(alloc: Global, inputs: u8) -> Result<Costs, AllocError>
        requires { inputs ≤ 16 }
        ensures value { IfOk result (λ c. c ≡ start_costs inputs) }
        ensures exact { IfOk result
            (λ c. (F : List Function) (P : List Pair) (r : LowerBound) (bound : ℕ) →
            AreTrueCosts inputs F P r bound c) }
    {
        let layer = Layer::of(alloc, inputs, 0)?;
        Ok(Costs {
            layer,
            cells: Vec::new(alloc),
        })
    }

    /// The costs of the sets of `layer`: `cells` has the cell of each, by rising mask.
    pub fn of(layer: Layer, cells: Vec<Cell>) -> Costs
        requires inputs { layer.inputs ≤ 16 }
        requires size { 0 < layer.size }
        requires cells { length cells.items ≡ length (layers.masks_of layer) }
        ensures value { result ≡ costs_with layer cells.items }
        ensures exact { (F : List Function) (P : List Pair) (r : LowerBound) (bound : ℕ) →
            AreTrueCells layer.inputs F P r bound result →
            AreTrueCosts layer.inputs F P r bound result }
    {
        Costs { layer, cells }
    }

    pub fn inputs(&self) -> u8
        ensures value { result ≡ self.now.inputs }
        ensures few { result ≤ 16 }
    {
        let _cells = &self.cells;
        self.layer.inputs()
    }

    /// The cell of the set `mask`. None if the set is not in the layer, or is empty.
    pub fn cell_of(&self, mask: Mask) -> Option<Cell>
        ensures value { result ≡ cell_at self.now mask }
        ensures some { IsSome result ↔
            (IsTrue (has (layers.masks_of (layer_of_costs self.now)) mask) × (0 < self.now.size)) }
        ensures exact { (F : List Function) (P : List Pair) (r : LowerBound) (bound : ℕ) →
            AreTrueCells self.now.inputs F P r bound self.now →
            IfSome result (λ cell. as_pair cell ≡ cell_of self.now.inputs F P r bound mask) }
    {
        let place = self.layer.position(mask)?;
        if place < self.cells.len() {
            Some(self.cells[place])
        } else {
            None
        }
    }

    /// The cost of the set `mask`: that of its cell, or 0 for the empty set. None if the set is not
    /// in the layer.
    pub fn cost_of(&self, mask: Mask) -> Option<u32>
        ensures value { result ≡ cost_at self.now mask }
        ensures some { IsSome result ↔ IsTrue
            (has (layers.masks_of (layer_of_costs self.now)) mask) }
    {
        let place = self.layer.position(mask)?;
        if place < self.cells.len() {
            Some(self.cells[place].cost)
        } else {
            Some(0)
        }
    }

    /// At each member x of `mask`, a set of the next layer, the cost of the set without x.
    pub fn below(&self, mask: Mask) -> [u32; 16]
        requires { IsTrue
            (has (layers.masks_of (layers.layer_with self.now.inputs (self.now.size + 1))) mask) }
        ensures { (x : ℕ) → IsTrue (has (members self.now.inputs mask) x) →
            slice_index result x ≡ cost_without self.now mask x }
    {
        let mut below = [0; 16];
        let mut from = 0;
        while let Some(x) = next_member(mask, from) {
            let cost = self.cost_of(mask - (1 << x)).unwrap();
            below[x as usize] = cost;
            from = x + 1;
        }
        below
    }
}
