ghost use Rattle.edge_walks.specs.Edges.{AreEdgeTables};
ghost use Rattle.edge_walks.specs.Blocks.{StandsAt};

use crate::class_table::ClassTable;
use order_model::{Mask, Problem, VarIx};

/// The mask of the set from which an edge leads, and the variable that it adds. Edges are ordered
/// by mask, then by variable.
pub type Edge = (Mask, VarIx);

/// Edges between sets of variables, for the functions of `problem`.
#[derive(Clone, Copy)]
pub struct Edges<'a> {
    pub problem: &'a Problem,
    /// The value of each set, which the caller chooses. An edge fails along which it rises by more
    /// than the width.
    pub values: &'a [u32],
    /// The variables of the edges to test into each set.
    pub judged: &'a [Mask],
    ghost tables: { AreEdgeTables problem.now.inputs values.now judged.now },
}

/// Where a walk stands: before the sets that are the set of `table` with none, some or all of the
/// free variables added, which are those below `free`.
#[derive(Clone, Copy)]
pub(crate) struct Position<'a, 't> {
    pub(crate) edges: Edges<'a>,
    pub(crate) table: &'a ClassTable<'t>,
    pub(crate) free: VarIx,
    ghost stands: { StandsAt edges.problem.now free table.now },
}
