//! Reduced diagrams of truth tables, made level by level from the bottom, without a store.

ghost use Rattle.std.specs.Prelude.{◌≡◌, ◌<◌, ◌≤◌, ◌^◌, length, map, IfOk, OnOk};
ghost use Rattle.definitions.specs.OrderedGraphs.{IsDiagramUnder};
ghost use Rattle.definitions.specs.Orders.{IsOrder};
ghost use Rattle.definitions.specs.Problems.{TruthTables, functions, packed_tables};
ghost use Rattle.truth_table.specs.Assignments.{AreValuesUnder};
ghost use Rattle.truth_table.specs.PackedTables.{ArePacked};
ghost use Rattle.truth_table.specs.Reduced.{IsByLevel, IsDiagramOf, IsNumberedDiagram, graph_named};
ghost use Rattle.truth_table.specs.Levels.{node_named, ref_named};
ghost use Rattle.std.specs.List.{All};

use crate::levels::{NumberedNode, add_level, ref_of};
use crate::packed_values::write_packed_values;
use crate::tables::Tables;
use indexmap::IndexSet;
use order_model::{Diagram, Node, Order, Ref, VarIx};
use std::alloc::{AllocError, Global};

/// Memory in which diagrams are made: each uses again what earlier ones took.
#[derive(Drop)]
pub struct DiagramMemory {
    /// The nodes of the last diagram, lower levels first.
    pub nodes: Vec<NumberedNode>,
    /// The number of each output's root, as children are numbered. While a diagram is made, the
    /// values of the functions at all points.
    pub roots: Vec<u32>,
    /// Working memory: the children of a level's nodes.
    pairs: IndexSet<(u32, u32)>,
}

impl DiagramMemory {
    /// Memory without a diagram.
    pub fn new(alloc: Global) -> DiagramMemory {
        DiagramMemory {
            nodes: Vec::new(alloc),
            roots: Vec::new(alloc),
            pairs: IndexSet::new(alloc),
        }
    }
}

/// Turns the values that `memory.roots` has into the reduced diagram under `order`. If memory is
/// refused, `memory` has no meaning.
fn add_levels(order: &[VarIx], memory: &mut DiagramMemory) -> Result<(), AllocError>
    requires few { length memory.old.roots.items ≤ 2 ^ 20 }
    requires small { All (λ c. c < 2) memory.old.roots.items }
    ensures diagram { OnOk result ((t : TruthTables) →
        AreValuesUnder t order.now memory.old.roots.items →
        IsNumberedDiagram t.inputs (functions t) order.now memory.new.nodes.items
        memory.new.roots.items) }
    ensures few { OnOk result (length memory.new.nodes.items ≤ 2 ^ 20) }
{
    memory.nodes.clear();
    for level in (0..order.len()).rev() {
        add_level(
            &mut memory.nodes,
            &mut memory.pairs,
            u32::from(order[level]),
            &mut memory.roots,
        )?;
    }
    Ok(())
}

/// Makes the reduced diagram of m functions of n variables under `order`, in `memory`. `words` has
/// their packed truth tables. If memory is refused, `memory` has no meaning. Takes time in
/// proportion to the number of outputs times that of points.
pub fn make_diagram(
    n: u8,
    m: u8,
    words: &[u64],
    order: &[VarIx],
    memory: &mut DiagramMemory,
) -> Result<(), AllocError>
    requires packed { ArePacked n m words.now }
    requires order { IsOrder n order.now }
    ensures diagram { OnOk result
        (IsNumberedDiagram n (functions (packed_tables n m words.now)) order.now
        memory.new.nodes.items memory.new.roots.items) }
    ensures few { OnOk result (length memory.new.nodes.items ≤ 2 ^ 20) }
{
    write_packed_values(n, m, words, order, &mut memory.roots)?;
    add_levels(order, memory)?;
    Ok(())
}

/// Makes the reduced diagram of the functions of `tables` under `order` in `memory`.
fn draw_tables(
    tables: &Tables,
    order: &[VarIx],
    memory: &mut DiagramMemory,
) -> Result<(), AllocError>
    requires { IsOrder tables.now.inputs order.now }
    ensures diagram { OnOk result
        (IsNumberedDiagram tables.now.inputs (functions tables.now) order.now
        memory.new.nodes.items memory.new.roots.items) }
    ensures few { OnOk result (length memory.new.nodes.items ≤ 2 ^ 20) }
{
    tables.write_values(order, &mut memory.roots)?;
    add_levels(order, memory)?;
    Ok(())
}

fn refs_of(alloc: Global, numbers: &[u32]) -> Result<Vec<Ref>, AllocError>
    ensures { IfOk result (λ v. v.items ≡ map ref_named numbers.now) }
{
    let mut refs = Vec::with_capacity(alloc, numbers.len())?;
    for number in numbers {
        refs.push(ref_of(*number))?;
    }
    Ok(refs)
}

fn nodes_of(alloc: Global, numbered: &[NumberedNode]) -> Result<Vec<Node>, AllocError>
    requires { All (λ (node : NumberedNode). node.variable < 2 ^ 8) numbered.now }
    ensures { IfOk result (λ v. v.items ≡ map node_named numbered.now) }
{
    let mut nodes = Vec::with_capacity(alloc, numbered.len())?;
    for i in 0..numbered.len() {
        let NumberedNode {
            variable,
            low,
            high,
        } = numbered[i];
        nodes.push(Node {
            variable: variable as VarIx,
            low: ref_of(low),
            high: ref_of(high),
        })?;
    }
    Ok(nodes)
}

/// The diagram under `order` that `memory` has.
fn diagram_of(alloc: Global, memory: &DiagramMemory, order: &Order) -> Result<Diagram, AllocError>
    requires diagram { IsDiagramUnder order.now (map node_named memory.now.nodes.items)
        (map ref_named memory.now.roots.items) }
    requires few { length memory.now.nodes.items ≤ 2 ^ 20 }
    ensures { IfOk result (λ d. d ≡ (record {
      order = order.now;
      graph = graph_named memory.now.nodes.items memory.now.roots.items;
    })) }
{
    prove!(order.len() <= 16);
    let nodes = nodes_of(alloc, &memory.nodes)?;
    let roots = refs_of(alloc, &memory.roots)?;
    Ok(Diagram::new(order.try_clone(alloc)?, nodes, roots))
}

/// The reduced diagram of the functions of `tables` under `order`, lower levels first. Takes time
/// in proportion to the number of outputs times that of points.
pub fn reduced_diagram(alloc: Global, tables: &Tables, order: &Order) -> Result<Diagram, AllocError>
    requires { length order.now ≡ tables.now.inputs }
    ensures diagram { IfOk result
        (IsDiagramOf tables.now.inputs (functions tables.now) order.now) }
    ensures by_level { IfOk result (λ d. IsByLevel order.now d.graph.nodes) }
    ensures few { IfOk result (λ d. length d.graph.nodes ≤ 2 ^ 20) }
{
    let mut memory = DiagramMemory::new(alloc);
    draw_tables(tables, order.variables(), &mut memory)?;
    diagram_of(alloc, &memory, order)
}
