//! The cells of all sets of variables: of each set the least cost, and the smallest top variable
//! that gives it.

ghost use Rattle.std.specs.Prelude.{◌≡◌, ◌^◌, ◌<◌, ◌≤◌, IfOk};
ghost use Rattle.layer_core.specs.LayerCosts.{AreAllLayers, IsLayerFor};
ghost use Rattle.solutions.specs.Bounded.{AreFlatCells};
ghost use Rattle.solutions.specs.Solutions.{cost_for};

use layer_core::Instance;
use order_model::Mask;
use std::alloc::{AllocError, Global};
use std::marker::Model;
use subset_layers::{Cell, Costs};

/// The cells of all sets of a problem instance's variables. Some order that keeps the instance's
/// pairs has no more nodes than the instance's bound.
#[derive(Drop)]
pub struct AllCells<'a> {
    instance: &'a Instance<'a>,
    /// The cell of each set, at the index that is the set's mask; that of the empty set costs 0.
    pub(crate) cells: Vec<Cell>,
}

impl<'a> Model for AllCells<'a> {
    ghost use Rattle.layer_core.specs.Instances.{InstanceOf};
    ghost use Rattle.solutions.specs.Bounded.{HoldsCells};

    ghost Value = { InstanceOf };

    ghost view = { λ a. a.instance.now };

    ghost invariant = { λ a. HoldsCells a.instance.now a.cells.items };
}

/// The layer in `layers` that has the sets of `size` variables.
fn layer_of<'c>(instance: &Instance<'_>, layers: &'c [Costs], size: u32) -> &'c Costs
    requires layers { AreAllLayers instance.now layers.now }
    requires few { size ≤ instance.now.problem.inputs }
    ensures { IsLayerFor instance.now size result.now }
{
    let _inputs = instance.inputs();
    &layers[size as usize]
}

/// The cells of `layers` in one list, each at its set's mask.
fn by_mask(
    alloc: Global,
    instance: &Instance<'_>,
    layers: &[Costs],
) -> Result<Vec<Cell>, AllocError>
    requires { AreAllLayers instance.now layers.now }
    ensures { IfOk result (λ v. AreFlatCells instance.now v.items) }
{
    let sets = 1u32 << instance.inputs();
    let mut cells = Vec::with_capacity(alloc, sets as usize)?;
    cells.push(Cell {
        cost: 0,
        variable: 0,
    })?;
    for number in 1..sets {
        let mask = number as Mask;
        let layer = layer_of(instance, layers, mask.count_ones());
        cells.push(layer.cell_of(mask).unwrap())?;
    }
    Ok(cells)
}

impl<'a> AllCells<'a> {
    ghost use Rattle.solutions.specs.Bounded.{IsBounded};

    /// The cells of `layers`: `layers[k]` has those of the sets of k variables.
    pub fn of_layers(
        alloc: Global,
        instance: &'a Instance<'a>,
        layers: &[Costs],
    ) -> Result<AllCells<'a>, AllocError>
        requires bounded { IsBounded instance.now }
        requires layers { AreAllLayers instance.now layers.now }
        ensures { IfOk result (λ a. a ≡ instance.now) }
    {
        let cells = by_mask(alloc, instance, layers)?;
        Ok(AllCells { instance, cells })
    }

    /// The cells of all sets in one list, each at its set's mask.
    pub fn of_cells(instance: &'a Instance<'a>, cells: Vec<Cell>) -> AllCells<'a>
        requires bounded { IsBounded instance.now }
        requires cells { AreFlatCells instance.now cells.items }
        ensures { result ≡ instance.now }
    {
        AllCells { instance, cells }
    }

    pub fn inputs(&self) -> u8
        ensures value { result ≡ self.now.problem.inputs }
        ensures some { 1 ≤ result }
        ensures few { result ≤ 16 }
        ensures bounded { IsBounded self.now }
    {
        self.instance.inputs()
    }

    pub(crate) fn instance(&self) -> &Instance<'a>
        ensures { result.now ≡ self.now }
    {
        self.instance
    }

    /// The least cost of the set `mask`, or the bound + 1 if the set is pruned or not lawful. The
    /// empty set costs 0.
    pub fn cost(&self, mask: Mask) -> u32
        requires { mask < 2 ^ self.now.problem.inputs }
        ensures { result ≡ cost_for self.now mask }
    {
        self.cells[usize::from(mask)].cost
    }
}
