//! Worked layers, blocks and cells.

ghost use Rattle.std.specs.Prelude.{◌≡◌, ◌+◌, ◌<◌};

use crate::searches::tables_of;
use order_model::{LowerBound, LowerBounds, Mask};
use std::alloc::Global;
use std::process::Abort;
use subset_layers::{Cell, Costs, Layer, lawful_cell};

/// Low bytes of sets, how many sets have each, and the first of these.
static BLOCKS: [(u8, usize, Mask); 5] = [
    (0x00, 1, 0x0300),
    (0x01, 2, 0x0101),
    (0x02, 2, 0x0102),
    (0x03, 1, 0x0003),
    (0x04, 2, 0x0104),
];

/// Whether the first blocks of a layer of ten variables are these.
fn has_blocks(layer: &Layer) -> bool {
    for (i, (low, len, first)) in BLOCKS.iter().enumerate() {
        if i >= layer.blocks() {
            return false;
        }
        let block = layer.block(i);
        if block.len() == 0 || block.mask(0) != *first {
            return false;
        }
        if block.inputs() != 10 || block.low() != *low || block.len() != *len {
            return false;
        }
    }
    true
}

/// Whether a layer has the numbers and the places of the sets of two of ten variables.
fn has_sets(layer: &Layer) -> bool {
    layer.inputs() == 10
        && layer.size() == 2
        && layer.len() == 45
        && layer.blocks() == 37
        && layer.position(0x0003) == Some(0)
        && layer.position(0x0001).is_none()
        && layer.block_place(0) == 3
        && layer.mask_at(0) == 0x0003
}

#[test]
fn layers_list_their_sets(rt: HostRuntime) {
    let layer = Layer::of(rt.alloc(), 10, 2).expect(&rt, "memory");
    assert!(rt; has_sets(&layer) && has_blocks(&layer));
}

/// Of each set of a layer of the multiplexer (the variable 2 selects 0 or 1) the widths of the
/// variables over the set without them, if they are needed, and the cost and variable of its cell
/// for the bound 3.
type Row = (Mask, [u32; 3], u32, u8);

static ONE: [Row; 3] = [
    (0x0001, [1, 0, 0], 1, 0),
    (0x0002, [0, 1, 0], 1, 1),
    (0x0004, [0, 0, 2], 4, 2),
];

static TWO: [Row; 3] = [
    (0x0003, [1, 1, 0], 2, 0),
    (0x0005, [0, 0, 2], 4, 0),
    (0x0006, [0, 0, 2], 4, 1),
];

static THREE: [Row; 1] = [(0x0007, [0, 0, 1], 3, 2)];

fn cell_of(row: &Row) -> Cell {
    let (_, _, cost, variable) = row;
    Cell {
        cost: *cost,
        variable: *variable,
    }
}

fn cells_of(rt: &impl Abort, alloc: Global, rows: &[Row]) -> Vec<Cell> {
    let mut cells = Vec::new(alloc);
    for row in rows {
        cells.push(cell_of(row)).expect(rt, "memory");
    }
    cells
}

/// Whether the cells of a layer's sets, over the costs of the layer before, are those of the rows.
fn are_least(layer: &Layer, costs: &Costs, lower_bounds: &LowerBounds<'_>, rows: &[Row]) -> bool
    requires inputs { costs.now.inputs ≡ 3 }
    requires functions { lower_bounds.now.problem.inputs ≡ 3 }
    requires same { layer.now.inputs ≡ 3 }
    requires next { layer.now.size ≡ costs.now.size + 1 }
{
    for (i, row) in rows.iter().enumerate() {
        let (mask, widths, _, _) = row;
        if layer.position(*mask) != Some(i) || *mask == 0 || *mask >= 8 {
            return false;
        }
        let mut padded = [0; 16];
        padded[..3].copy_from_slice(widths);
        let below = costs.below(*mask);
        if lawful_cell(*mask, 3, &below, &padded, 3, lower_bounds) != cell_of(row) {
            return false;
        }
    }
    true
}

/// Whether the costs of a layer's sets are those of the rows.
fn has_rows(costs: &Costs, rows: &[Row]) -> bool {
    for row in rows {
        let (mask, _, cost, _) = row;
        if costs.cell_of(*mask) != Some(cell_of(row)) || costs.cost_of(*mask) != Some(*cost) {
            return false;
        }
    }
    true
}

/// The costs of a layer of which each set has a cell.
fn costs_of(rt: &impl Abort, layer: Layer, cells: Vec<Cell>, rows: &[Row]) -> Costs
    requires inputs { layer.inputs ≡ 3 }
    requires some { 0 < layer.size }
    ensures inputs { result.inputs ≡ 3 }
    ensures size { result.size ≡ layer.size }
{
    assert!(rt; cells.len() == layer.len());
    let costs = Costs::of(layer, cells);
    assert!(rt; has_rows(&costs, rows));
    costs
}

/// The costs of the layer after that of the costs, which are to be those of the rows.
fn next_costs(
    rt: &impl Abort,
    alloc: Global,
    costs: Costs,
    lower_bounds: &LowerBounds<'_>,
    size: u8,
    rows: &[Row],
) -> Costs
    requires inputs { costs.inputs ≡ 3 }
    requires functions { lower_bounds.now.problem.inputs ≡ 3 }
    requires next { size ≡ costs.size + 1 }
    ensures inputs { result.inputs ≡ 3 }
    ensures size { result.size ≡ size }
{
    let layer = Layer::of(alloc, 3, size).expect(rt, "memory");
    assert!(rt; are_least(&layer, &costs, lower_bounds, rows));
    let cells = cells_of(rt, alloc, rows);
    costs_of(rt, layer, cells, rows)
}

/// The costs of the empty set alone.
fn first_costs(rt: &impl Abort, alloc: Global) -> Costs
    ensures inputs { result.inputs ≡ 3 }
    ensures size { result.size ≡ 0 }
{
    let costs = Costs::start(alloc, 3).expect(rt, "memory");
    assert!(rt; costs.cost_of(0x0000) == Some(0) && costs.cell_of(0x0000).is_none());
    costs
}

/// Goes through the layers, each layer's costs made from those of the one before.
fn check_layers(rt: &impl Abort, alloc: Global, lower_bounds: &LowerBounds<'_>)
    requires { lower_bounds.now.problem.inputs ≡ 3 }
{
    let costs = first_costs(rt, alloc);
    let costs = next_costs(rt, alloc, costs, lower_bounds, 1, &ONE);
    assert!(rt; costs.cost_of(0x0003).is_none());
    let costs = next_costs(rt, alloc, costs, lower_bounds, 2, &TWO);
    let costs = next_costs(rt, alloc, costs, lower_bounds, 3, &THREE);
    assert!(rt; costs.inputs() == 3);
}

static MULTIPLEXER: &[u8] = b".i 3\n.o 1\n1-0 1\n-11 1\n.e\n";

#[test]
fn the_multiplexer_has_its_cells(rt: HostRuntime) {
    let tables = tables_of(&rt, rt.alloc(), MULTIPLEXER);
    assert!(rt; tables.problem().inputs() == 3);
    check_layers(
        &rt,
        rt.alloc(),
        &LowerBounds::new(tables.problem(), LowerBound::Variables),
    );
}
