ghost use Rattle.std.specs.Prelude.{◌≡◌, ◌+◌, ◌<◌, ◌≤◌, ℕ, [], not, length, slice_index, swap, IfOk, IsFalse};
ghost use Rattle.definitions.specs.Diagrams.{IsReduced, IsOrdered};
ghost use Rattle.definitions.specs.Pairs.{Keeps, has_pair};
ghost use Rattle.sifting.specs.LevelLists.{nodes_of};
ghost use Rattle.sifting.specs.Managed.{truth_tables_of, size_of, count_of, IsManagedOrder};

use crate::build::levels_of;
use crate::levels::{Level, swap_levels};
use crate::node_table::NodeTable;
use order_model::{Diagram, Order, Pairs, contains};
use std::alloc::{AllocError, Global};
use std::marker::Model;
use std::mem;

/// A reduced diagram whose adjacent levels can be swapped, under an order that keeps some pairs. A
/// call that takes it by value and runs out of memory drops it.
#[derive(Debug, Drop)]
pub struct Manager {
    order: Order,
    /// The index on the top level of each root's node.
    roots: Vec<u32>,
    levels: Vec<Level>,
    /// The values of the terminals, to whose places the lowest level's children refer.
    terminals: Vec<bool>,
    pairs: Pairs,
    table: NodeTable,
}

impl Model for Manager {
    ghost use Rattle.sifting.specs.Managed.{Managed};
    ghost use Rattle.sifting.specs.LevelLists.{nodes_of, problem_at, HoldsDiagram};

    ghost Value = { Managed };

    ghost view = { λ m. record {
      order = m.order;
      problem = problem_at (nodes_of m.levels.items) m.terminals.items m.order m.roots.items;
      pairs = m.pairs.pairs;
    } };

    ghost invariant = { λ m. HoldsDiagram
        (nodes_of m.levels.items) m.terminals.items m.order m.roots.items m.pairs };
}

fn copies_of(alloc: Global, levels: &[Level]) -> Result<Vec<Level>, AllocError>
    ensures { IfOk result (λ v. nodes_of v.items ≡ nodes_of levels.now) }
{
    let mut copies = Vec::with_capacity(alloc, levels.len())?;
    for level in levels {
        copies.push(level.try_clone(alloc)?)?;
    }
    Ok(copies)
}

impl Manager {
    /// The manager of a diagram, with no pairs to keep. The time is at most in proportion to the
    /// number of nodes, plus, for each edge, the number of levels that it passes over.
    pub fn of(alloc: Global, diagram: Diagram) -> Result<Manager, AllocError>
        requires few { length diagram.graph.roots ≤ 16 }
        requires ordered { IsOrdered diagram.order diagram.graph }
        requires reduced { IsReduced diagram.graph }
        ensures order { IfOk result (λ m. m.order ≡ diagram.order) }
        ensures functions { IfOk result (λ m. m.problem ≡ truth_tables_of diagram) }
        ensures pairs { IfOk result (λ m. m.pairs ≡ []) }
    {
        let pairs = Pairs::none(diagram.order().len() as u8);
        let manager = Manager::with_pairs(alloc, diagram, pairs)?;
        Ok(manager)
    }

    /// The manager of a diagram whose order keeps `pairs`. Takes a step for each node and each
    /// entry of the levels.
    pub fn with_pairs(alloc: Global, diagram: Diagram, pairs: Pairs) -> Result<Manager, AllocError>
        requires few { length diagram.graph.roots ≤ 16 }
        requires ordered { IsOrdered diagram.order diagram.graph }
        requires reduced { IsReduced diagram.graph }
        requires inputs { pairs.inputs ≡ length diagram.order }
        requires kept { Keeps pairs.pairs diagram.order }
        ensures order { IfOk result (λ m. m.order ≡ diagram.order) }
        ensures functions { IfOk result (λ m. m.problem ≡ truth_tables_of diagram) }
        ensures pairs { IfOk result (λ m. m.pairs ≡ pairs.pairs) }
    {
        let (order, nodes, roots) = diagram.into_parts();
        let built = levels_of(alloc, order.variables(), &nodes, &roots)?;
        Ok(Manager {
            order,
            roots: built.roots,
            levels: built.levels,
            terminals: built.terminals,
            pairs,
            table: NodeTable::new(alloc),
        })
    }

    /// Whether no pair forbids to swap `level`, counted from 0 at the top, with the level below it.
    pub fn may_swap(&self, level: usize) -> bool
        requires { level + 1 < length self.now.order }
        ensures { result ≡ not
            (has_pair self.now.pairs (slice_index self.now.order level)
            (slice_index self.now.order (level + 1))) }
    {
        let variables = self.order.variables();
        !contains(self.pairs.below(variables[level]), variables[level + 1])
    }

    /// Swaps `level`, counted from 0 at the top, with the level below it. Takes time in proportion
    /// to the number of nodes on the two levels.
    pub fn swap(self, alloc: Global, level: usize) -> Result<Manager, AllocError>
        requires below { level + 1 < length self.order }
        requires lawful { IsFalse
            (has_pair self.pairs (slice_index self.order level)
            (slice_index self.order (level + 1))) }
        ensures order { IfOk result (λ m. m.order ≡ swap self.order level (level + 1)) }
        ensures functions { IfOk result (λ m. m.problem ≡ self.problem) }
        ensures pairs { IfOk result (λ m. m.pairs ≡ self.pairs) }
    {
        let mut manager = self;
        let (upper, lower) = swap_levels(
            alloc,
            &mut manager.table,
            &manager.levels[level].nodes,
            &manager.levels[level + 1].nodes,
        )?;
        let upper = mem::replace(&mut manager.levels[level], upper);
        let lower = mem::replace(&mut manager.levels[level + 1], lower);
        manager.table.reuse(upper, lower);
        manager.order.swap(level);
        Ok(manager)
    }

    /// The number of nodes of the reduced diagram.
    pub fn size(&self) -> u32
        ensures value { result ≡ size_of self.now }
        ensures managed { IsManagedOrder self.now }
    {
        let mut size = 0;
        for level in &self.levels {
            size += level.count;
        }
        size
    }

    /// The number of nodes on each level, top first. Entries past the last level are 0.
    pub fn level_counts(&self) -> [u32; 16]
        ensures counts { (i : ℕ) → i < length self.now.order →
            slice_index result i ≡ count_of self.now i }
        ensures others { (i : ℕ) → length self.now.order ≤ i → slice_index result i ≡ 0 }
    {
        let mut counts = [0u32; 16];
        for (place, level) in self.levels.iter().enumerate() {
            counts[place] = level.count;
        }
        counts
    }

    /// The order of the variables, top first.
    pub fn order(&self) -> &Order
        ensures value { result.now ≡ self.now.order }
        ensures managed { IsManagedOrder self.now }
    {
        // The read recalls the invariant of the type.
        let _ = &self.levels;
        &self.order
    }

    /// A copy of the manager.
    pub(crate) fn try_clone(&self, alloc: Global) -> Result<Manager, AllocError>
        ensures { IfOk result (λ m. m ≡ self.now) }
    {
        Ok(Manager {
            order: self.order.try_clone(alloc)?,
            roots: self.roots.to_vec(alloc)?,
            levels: copies_of(alloc, &self.levels)?,
            terminals: self.terminals.to_vec(alloc)?,
            pairs: self.pairs.copied(),
            table: NodeTable::new(alloc),
        })
    }

    /// The pairs that the order keeps.
    pub fn pairs(&self) -> &Pairs
        ensures inputs { result.now.inputs ≡ length self.now.order }
        ensures value { result.now.pairs ≡ self.now.pairs }
    {
        // The read recalls the invariant of the type.
        let _ = &self.levels;
        &self.pairs
    }
}
