//! Class tables of sets of the highest variables, which tasks share.

ghost use Rattle.std.specs.Prelude.{◌≡◌, ◌-◌, ◌<◌, ◌≤◌, IfOk, IfSome, OnOk};
ghost use Rattle.std.specs.List.{All};
ghost use Rattle.edge_walks.specs.Edges.{IsFirstEdge};
ghost use Rattle.edge_walks.specs.Blocks.{IsBlock, StandsAt};
ghost use Rattle.edge_walks.specs.Walks.{FailsInBlock};

use crate::class_table::ClassTable;
use crate::position::{Edge, Position};
use crate::walk::{first_in_part, has_upper_judged, upper_table};
use order_model::{Mask, VarIx};
use pair_numbering::PairMemory;
use std::alloc::{AllocError, Global};

/// The class table of the set of `at.table` with the variable `at.free` - 1 added. None if no edge
/// is to be tested into this set with none, some or all of the smaller variables added. `memory` is
/// working memory.
fn judged_upper_table<'t>(
    memory: &mut PairMemory,
    at: Position<'_, 't>,
) -> Result<Option<ClassTable<'t>>, AllocError>
    requires { 0 < at.free }
    ensures { IfOk result
        (λ o. IfSome o (StandsAt at.entry.edges.problem.now (at.entry.free - 1))) }
{
    if !has_upper_judged(at) {
        return Ok(None);
    }
    let larger = upper_table(memory, at)?;
    Ok(Some(larger))
}

/// Adds the variable `root.free` - 1 to the sets of `root.table` and of `tops`, and appends the
/// class tables of these larger sets that `judged_upper_table` gives to `tops`. If memory is
/// refused, only some may be appended.
fn add_variable<'t>(
    memory: &mut PairMemory,
    root: Position<'_, 't>,
    tops: &mut Vec<ClassTable<'t>>,
) -> Result<(), AllocError>
    requires free { 0 < root.free }
    requires tops { All (StandsAt root.edges.problem.now root.free) tops.old.items }
    ensures { OnOk result
        (All (StandsAt root.entry.edges.problem.now (root.entry.free - 1)) tops.new.items) }
{
    let Position { edges, free, .. } = root;
    let made = tops.len();
    if let Some(larger) = judged_upper_table(memory, root)? {
        tops.push(larger)?;
    }
    for i in 0..made {
        let at = Position {
            edges,
            table: &tops[i],
            free,
        };
        if let Some(larger) = judged_upper_table(memory, at)? {
            tops.push(larger)?;
        }
    }
    Ok(())
}

/// The class tables of the non-empty sets without variables below `y` that the walk needs. It needs
/// a set if an edge is to be tested into it with none, some or all smaller variables added.
pub(crate) fn top_tables<'t>(
    alloc: Global,
    root: Position<'_, 't>,
    y: VarIx,
) -> Result<Vec<ClassTable<'t>>, AllocError>
    requires { y ≤ root.free }
    ensures { IfOk result (λ v. All (StandsAt root.entry.edges.problem.now y) v.items) }
{
    let Position { edges, table, free } = root;
    let mut memory = PairMemory::new(alloc);
    let mut tops = Vec::new(alloc);
    for x in (y..free).rev() {
        let above = Position {
            edges,
            table,
            free: x + 1,
        };
        add_variable(&mut memory, above, &mut tops)?;
    }
    Ok(tops)
}

/// The first edge to test that fails and leads into `part` with none, some or all of the variables
/// below `end` added. `tops` has class tables, of sets without variables below `y`, from which the
/// walk can begin later than at `root`.
pub(crate) fn first_from_tops(
    alloc: Global,
    root: Position,
    tops: &[ClassTable],
    y: VarIx,
    part: Mask,
    end: VarIx,
) -> Result<Option<Edge>, AllocError>
    requires root { (root.table.now.set ≡ 0) × (root.free ≡ root.edges.problem.now.inputs) }
    requires tops { All (StandsAt root.edges.problem.now y) tops.now }
    requires end { (end ≤ y) × (y < root.free) }
    requires part { IsBlock root.edges.problem.now.inputs part end }
    ensures { IfOk result (IsFirstEdge (FailsInBlock root.entry.edges part end)) }
{
    let mut memory = PairMemory::new(alloc);
    for table in tops {
        if table.set() == part >> y << y {
            let top = Position {
                edges: root.edges,
                table,
                free: y,
            };
            return first_in_part(&mut memory, top, part, end);
        }
    }
    first_in_part(&mut memory, root, part, end)
}
