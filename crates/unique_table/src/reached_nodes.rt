ghost use Rattle.std.specs.Prelude.{IfOk, length, map};
ghost use Rattle.std.specs.List.{All};
ghost use Rattle.definitions.specs.Orders.{IsOrder};
ghost use Rattle.node_words.specs.Nodes.{AreUnequal, IsKnown};
ghost use Rattle.node_words.specs.Meaning.{function_of};
ghost use Rattle.unique_table.specs.Copies.{words_in, HasNodes, IsReducedOf};

use crate::node_copies::copy;
use crate::page_numbers::Numbers;
use atomic_table::Closed;
use order_model::{Node, Ref, VarIx};
use std::alloc::{AllocError, Global};

/// Nodes, each after its children, and a root for each id that was given.
#[derive(Drop)]
pub(crate) struct ReachedNodes {
    pub nodes: Vec<Node>,
    pub roots: Vec<Ref>,
}

/// Makes the reduced diagram, under `order`, of the functions that `ids` denote. The first `places`
/// words of `closed` are those of the node places.
pub(crate) fn reached_nodes(
    alloc: Global,
    closed: &Closed<(), Global>,
    places: usize,
    order: &[VarIx],
    ids: &[u32],
) -> Result<ReachedNodes, AllocError>
    requires nodes { HasNodes closed.now places (length order.now) }
    requires order { IsOrder (length order.now) order.now }
    requires unequal { AreUnequal (words_in closed.now places) }
    requires known { All (IsKnown (words_in closed.now places)) ids.now }
    ensures { IfOk result
        (λ r. IsReducedOf (length order.now)
        (map (function_of order.now (words_in closed.now places)) ids.now) order.now
        r.nodes.items r.roots.items) }
{
    let mut numbers = Numbers::zeros(alloc, places)?;
    let mut nodes = Vec::new(alloc);
    let mut roots = Vec::with_capacity(alloc, ids.len())?;
    for id in ids {
        let root = copy(closed, places, order, &mut numbers, &mut nodes, *id)?;
        roots.push(root)?;
    }
    Ok(ReachedNodes { nodes, roots })
}
