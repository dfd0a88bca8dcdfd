//! The levels of a diagram, and the swap of two adjacent levels. A level has a node for each
//! function that is left over when all variables above are fixed in some way. If such a function
//! doesn't depend on the level's variable, the two children of its node are equal. So each edge
//! goes to the next level, and a swap changes nothing outside its two levels.

ghost use Rattle.std.specs.Prelude.{◌≡◌, ◌*◌, ◌<◌, ◌≤◌, ◌^◌, length, IfOk};
ghost use Rattle.sifting.specs.Leveled.{branching, HasChildren, SwapsLevels};

use crate::node_table::NodeTable;
use std::alloc::{AllocError, Global};

/// The indexes of a node's low and high child on the next level, or among the terminals.
pub(crate) type Children = (u32, u32);

/// A level of a diagram, with nodes whose two children are equal.
#[derive(Debug, Drop)]
pub(crate) struct Level {
    /// The nodes, each once. A node's place is its index here.
    pub nodes: Vec<Children>,
    /// How many nodes have two different children, and so are nodes of the reduced diagram.
    pub count: u32,
    pub ghost counted: { count ≡ branching nodes.items },
}

fn count_of(nodes: &[Children]) -> u32
    requires { length nodes.now < 2 ^ 32 }
    ensures { result ≡ branching nodes.now }
{
    let mut count = 0;
    for (low, high) in nodes {
        if *low != *high {
            count += 1;
        }
    }
    count
}

impl Level {
    /// The level with the nodes `nodes`.
    pub fn new(nodes: Vec<Children>) -> Level
        requires { length nodes.items < 2 ^ 32 }
        ensures { result.nodes ≡ nodes }
    {
        let count = count_of(&nodes);
        Level { nodes, count }
    }

    pub fn try_clone(&self, alloc: Global) -> Result<Level, AllocError>
        ensures { IfOk result (λ l. l.nodes.items ≡ self.now.nodes.items) }
    {
        Ok(Level {
            nodes: self.nodes.to_vec(alloc)?,
            count: self.count,
        })
    }
}

/// Swaps the variables of two adjacent levels, and returns the new levels. Node k of the new upper
/// level has the function of `upper[k]`. `table` is working memory.
pub(crate) fn swap_levels(
    alloc: Global,
    table: &mut NodeTable,
    upper: &[Children],
    lower: &[Children],
) -> Result<(Level, Level), AllocError>
    requires few { 4 * length upper.now ≤ 2 ^ 32 }
    requires inside { HasChildren (length lower.now) upper.now }
    ensures { IfOk result (λ r. SwapsLevels upper.now lower.now r.0.nodes.items r.1.nodes.items) }
{
    let mut kept = table.spare_list(alloc, upper.len())?;
    table.begin(2 * upper.len())?;
    let mut count = 0;
    for (off, on) in upper {
        let (off_off, off_on) = lower[*off as usize];
        let (on_off, on_on) = lower[*on as usize];
        let without = table.number_of((off_off, on_off))?;
        let with = table.number_of((off_on, on_on))?;
        kept.push((without, with))?;
        count += u32::from(without != with);
    }
    let made = table.finish(alloc);
    Ok((Level { nodes: kept, count }, made))
}
