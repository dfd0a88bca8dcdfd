//! Decision diagrams with several roots, and with the order of their variables.

ghost use Rattle.std.specs.Prelude.{◌≡◌, ◌<◌, ◌≤◌, ◌^◌, ℕ, length, slice_index, sum};
ghost use Rattle.definitions.specs.Functions.{point_of};
ghost use Rattle.definitions.specs.Diagrams.{AreNodes, IsBefore, child_at, value, nodes_at, variable_count};
ghost use Rattle.definitions.specs.declared.refs.Node.{Node};
ghost use Rattle.std.specs.List.{All};
ghost use Rattle.definitions.specs.OrderedGraphs.{IsOrderedGraph, IsDiagramUnder, root_value};

use crate::orders::Order;
use definitions::{Node, Ref, VarIx};
use std::marker::Model;

/// The child of `node` that evaluation at `point` takes. Bit x of `point` is variable x.
fn child(variables: u8, node: Node, point: u32) -> Ref
    requires variables { variables ≤ 16 }
    requires node { node.variable < variables }
    ensures { result ≡ child_at (point_of variables point) node }
{
    if (point >> node.variable) & 1 == 1 {
        node.high
    } else {
        node.low
    }
}

/// The value at `point` of the function with root `root`. Bit x of `point` is variable x.
pub fn eval(variables: u8, nodes: &[Node], root: Ref, point: u32) -> bool
    requires variables { variables ≤ 16 }
    requires nodes { AreNodes variables nodes.now }
    requires root { IsBefore (length nodes.now) root }
    ensures { result ≡ value nodes.now root (point_of variables point) }
{
    let mut here = root;
    loop {
        match here {
            Ref::Terminal(value) => return value,
            Ref::Place(place) => here = child(variables, nodes[place], point),
        }
    }
}

/// The number of nodes of each variable.
fn counts_by_variable(nodes: &[Node]) -> [u32; 16]
    requires few { length nodes.now < 2 ^ 32 }
    requires variables { All (λ (node : Node). node.variable < 16) nodes.now }
    ensures { (x : ℕ) → x < 16 → slice_index result x ≡ variable_count nodes.now x }
{
    let mut counts = [0u32; 16];
    for node in nodes {
        let variable = node.variable as usize;
        counts[variable] += 1;
    }
    counts
}

/// Node counts by level, top first, of the counts by variable. Entries past the last level are 0.
fn in_order(order: &[VarIx], counts: [u32; 16]) -> [u32; 16]
    requires few { length order.now ≤ 16 }
    requires variables { All (λ x. x < 16) order.now }
    ensures counts { (i : ℕ) → i < length order.now →
        slice_index result i ≡ slice_index counts (slice_index order.now i) }
    ensures others { (i : ℕ) → length order.now ≤ i → slice_index result i ≡ 0 }
{
    let mut levels = [0u32; 16];
    for (level, x) in order.iter().enumerate() {
        levels[level] = counts[*x as usize];
    }
    levels
}

/// A decision diagram with one root per function. It need not be reduced, and its nodes need not
/// follow its order. Its size is the number of its nodes, whether a root reaches them or not.
#[derive(Debug, Drop)]
pub struct Diagram {
    order: Order,
    /// The nodes, each after its children.
    nodes: Vec<Node>,
    roots: Vec<Ref>,
}

impl Model for Diagram {
    ghost use Rattle.definitions.specs.OrderedGraphs.{OrderedGraph, IsOrderedGraph as HoldsGraph};

    ghost Value = { OrderedGraph };

    ghost view = { λ d. record {
      order = d.order;
      graph = record { nodes = d.nodes.items; roots = d.roots.items };
    } };

    ghost invariant = { λ d. HoldsGraph (record {
      order = d.order;
      graph = record { nodes = d.nodes.items; roots = d.roots.items };
    }) };
}

impl Diagram {
    /// The diagram of `nodes`, each after its children, which need not follow `order`.
    pub fn new(order: Order, nodes: Vec<Node>, roots: Vec<Ref>) -> Diagram
        requires few { length nodes.items < 2 ^ 32 }
        requires diagram { IsDiagramUnder order nodes.items roots.items }
        ensures order { result.order ≡ order }
        ensures nodes { result.graph.nodes ≡ nodes.items }
        ensures roots { result.graph.roots ≡ roots.items }
    {
        Diagram {
            order,
            nodes,
            roots,
        }
    }

    /// The diagram's variable order, top first.
    pub fn order(&self) -> &Order
        ensures value { result.now ≡ self.now.order }
        ensures diagram { IsOrderedGraph self.now }
    {
        &self.order
    }

    /// The nodes, each after its children.
    pub fn nodes(&self) -> &[Node]
        ensures value { result.now ≡ self.now.graph.nodes }
        ensures diagram { IsOrderedGraph self.now }
    {
        &self.nodes
    }

    /// The roots: entry j is that of function j.
    pub fn roots(&self) -> &[Ref]
        ensures value { result.now ≡ self.now.graph.roots }
        ensures diagram { IsOrderedGraph self.now }
    {
        &self.roots
    }

    /// How many nodes the diagram has, whether a root reaches them or not.
    pub fn size(&self) -> usize
        ensures { result ≡ length self.now.graph.nodes }
    {
        self.nodes.len()
    }

    /// The value at `point` of function `output`, counted from 0. Bit x of `point` is variable x.
    pub fn eval(&self, output: usize, point: u32) -> bool
        requires { output < length self.now.graph.roots }
        ensures { result ≡ root_value self.now.graph output
            (point_of (length self.now.order) point) }
    {
        let variables = self.order.len() as u8;
        eval(variables, &self.nodes, self.roots[output], point)
    }

    /// The number of nodes on each level, top first. Entries past the last level are 0.
    pub fn level_counts(&self) -> [u32; 16]
        ensures counts { (i : ℕ) → i < length self.now.order →
            slice_index result i ≡ nodes_at self.now.graph (slice_index self.now.order i) }
        ensures others { (i : ℕ) → length self.now.order ≤ i → slice_index result i ≡ 0 }
    {
        in_order(self.order.variables(), counts_by_variable(&self.nodes))
    }

    /// Takes the diagram apart: its order, its nodes and its roots.
    pub fn into_parts(self) -> (Order, Vec<Node>, Vec<Ref>)
        ensures order { result.0 ≡ self.order }
        ensures nodes { result.1.items ≡ self.graph.nodes }
        ensures roots { result.2.items ≡ self.graph.roots }
        ensures diagram { IsOrderedGraph self }
    {
        (self.order, self.nodes, self.roots)
    }
}

/// The sum of level counts: the size of their diagram.
pub fn total(counts: &[u32]) -> u64
    requires { length counts.now ≤ 16 }
    ensures { result ≡ sum counts.now }
{
    counts.iter().map(|&count| u64::from(count)).sum()
}
