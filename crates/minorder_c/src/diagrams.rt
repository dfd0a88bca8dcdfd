ghost use Rattle.std.specs.Prelude.{◌≡◌, ◌≢◌, length, IfOk, IfErr, OnOk};
ghost use Rattle.definitions.specs.Orders.{IsOrder};
ghost use Rattle.minorder_c.specs.Answers.{given};
ghost use Rattle.minorder_c.specs.Diagrams.{HasDiagramShape, HoldsDiagram, IsDiagramFor, IsDiagramStatus, IsShortDiagram};
ghost use Rattle.minorder_c.specs.Statuses.{RefusesOrder, ShowsOrder, ShowsShape};

use crate::arguments::{GivenTables, has_call_shape, order_of};
use crate::rooms::{SHORT_ROOM, put_front};
use crate::status::Refusal;
use order_model::VarIx;
use std::alloc::Global;
use truth_table::{DiagramMemory, NumberedNode, make_diagram};

/// The reduced diagram under `order`, with numbered nodes, if a slice of `roots` entries fits.
fn diagram_of(
    alloc: Global,
    given: &GivenTables,
    order: &[u8],
    roots: usize,
) -> Result<DiagramMemory, Refusal>
    ensures shape { OnOk result (HasDiagramShape given.now (length order.now) roots) }
    ensures order { OnOk result (IsOrder given.now.inputs order.now) }
    ensures diagram { IfOk result
        (λ d. IsDiagramFor given.now order.now d.nodes.items d.roots.items) }
    ensures roots { IfOk result (λ d. length d.roots.items ≡ roots) }
    ensures refused { IfErr result
        (RefusesOrder (HasDiagramShape given.now (length order.now) roots)
        (IsOrder given.now.inputs order.now)) }
{
    if roots != given.outputs as usize
        || !has_call_shape(given, order.len(), given.inputs as usize)
    {
        return Err(Refusal::Shape);
    }
    let order = order_of(alloc, order)?;
    let (inputs, outputs) = (given.inputs as u8, given.outputs as u8);
    let mut diagram = DiagramMemory::new(alloc);
    make_diagram(
        inputs,
        outputs,
        given.words,
        order.variables(),
        &mut diagram,
    )?;
    Ok(diagram)
}

/// Writes the reduced diagram under `order`: its nodes to the front of `nodes`, lowest first, their
/// number to `count`, and each output's root to `roots`: 0 or 1 for a terminal, k + 2 for node k.
/// Returns 7 if `nodes` is too short; then only `count` is written.
#[unsafe(no_mangle)]
pub extern "C" fn minorder_diagram_with_lengths(
    alloc: Global,
    tables: &[u64],
    inputs: u32,
    outputs: u32,
    order: &[VarIx],
    nodes: &mut [NumberedNode],
    roots: &mut [u32],
    count: &mut usize,
) -> u32
    ensures status { IsDiagramStatus result }
    ensures shape { ShowsShape (HasDiagramShape (given tables.entry inputs outputs)
        (length order.now) (length roots.old)) result }
    ensures order { ShowsOrder (IsOrder inputs order.now) result }
    ensures written { result ≡ 0 → HoldsDiagram (given tables.entry inputs outputs) order.now
        nodes.old nodes.new roots.new count.new }
    ensures short { result ≡ 7 →
        IsShortDiagram (given tables.entry inputs outputs) order.now nodes.old count.new }
    ensures stays { result ≢ 0 → (nodes.new ≡ nodes.old) × (roots.new ≡ roots.old) }
    ensures refused { result ≢ 0 → result ≢ 7 → count.new ≡ count.old }
{
    let given = GivenTables::of(tables, inputs, outputs);
    match diagram_of(alloc, &given, order, roots.len()) {
        Ok(diagram) => {
            *count = diagram.nodes.len();
            if nodes.len() < diagram.nodes.len() {
                return SHORT_ROOM;
            }
            put_front(nodes, &diagram.nodes);
            roots.copy_from_slice(&diagram.roots);
            0
        }
        Err(refusal) => refusal.status(),
    }
}
