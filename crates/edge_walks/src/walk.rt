ghost use Rattle.std.specs.Prelude.{◌≡◌, ℕ, ◌+◌, ◌-◌, ◌*◌, ◌/◌, ◌^◌, ◌<◌, ◌≤◌, false, None, length, slice_index, IfOk};
ghost use Rattle.edge_walks.specs.Edges.{IsFirstEdge, IsFirstOf};
ghost use Rattle.edge_walks.specs.Blocks.{IsBlock, IsPartTable, StandsAt, table_or};
ghost use Rattle.edge_walks.specs.Walks.{FailsAt, FailsInBlock, FailsInUpper};

use crate::class_table::ClassTable;
use crate::position::{Edge, Position};
use crate::upper_halves::upper_half_passes;
use order_model::{Mask, VarIx, contains};
use pair_numbering::PairMemory;
use std::alloc::AllocError;

/// The first of two edges, of which either may be missing.
pub(crate) fn first_of(a: Option<Edge>, b: Option<Edge>) -> Option<Edge>
    ensures { IsFirstOf a b result }
{
    let Some(one) = a else {
        return b;
    };
    let Some(other) = b else {
        return a;
    };
    if other.0 < one.0 {
        return Some(other);
    }
    if other.0 == one.0 && other.1 < one.1 {
        return Some(other);
    }
    Some(one)
}

/// Whether an edge is to be tested into a set whose mask is from `set` on and below `set` + 2^`y`.
pub(crate) fn has_judged(judged: &[Mask], set: Mask, y: VarIx) -> bool
    requires variable { y ≤ 16 }
    requires within { set + 2 ^ y ≤ length judged.now }
    ensures { result ≡ false → (T : ℕ) → set ≤ T → T < set + 2 ^ y → slice_index judged.now T ≡ 0 }
{
    let from = set as usize;
    for number in from..from + (1usize << y) {
        if judged[number] != 0 {
            return true;
        }
    }
    false
}

/// Whether an edge is to be tested into the upper half of the sets where the walk stands.
pub(crate) fn has_upper_judged(at: Position) -> bool
    requires { 0 < at.free }
    ensures { result ≡ false → IsFirstEdge (FailsInUpper at.entry) None }
{
    let x = at.free - 1;
    has_judged(at.edges.judged, at.table.set() + (1 << x), x)
}

/// The class table of the set of `at.table` with the variable `at.free` - 1 added. `memory` is
/// working memory.
pub(crate) fn upper_table<'t>(
    memory: &mut PairMemory,
    at: Position<'_, 't>,
) -> Result<ClassTable<'t>, AllocError>
    requires { 0 < at.free }
    ensures set { IfOk result (λ t. t.set ≡ at.entry.table.now.set + 2 ^ (at.entry.free - 1)) }
    ensures stands { IfOk result (StandsAt at.entry.edges.problem.now (at.entry.free - 1)) }
{
    at.table.with_variable(memory, at.free - 1)
}

/// The first edge into the set of `at.table` that fails. Edges by larger variables come first: they
/// lead from smaller masks.
fn first_into(at: Position) -> Option<Edge>
    requires { at.free ≡ 0 }
    ensures { IsFirstEdge (FailsAt at.entry) result }
{
    let Position { edges, table, .. } = at;
    let set = table.set();
    let wanted = edges.judged[set as usize];
    for x in (0..edges.problem.inputs()).rev() {
        if contains(wanted, x) {
            let from = set - (1 << x);
            let reached = u64::from(edges.values[from as usize]) + u64::from(table.width_into(x));
            if reached < u64::from(edges.values[set as usize]) {
                return Some((from, x));
            }
        }
    }
    None
}

/// The first edge that fails and leads into the sets where the walk stands. `short` is true if
/// repeated rows of the table were looked for already. `memory` is working memory.
pub(crate) fn first_failing(
    memory: &mut PairMemory,
    at: Position,
    short: bool,
) -> Result<Option<Edge>, AllocError>
    ensures { IfOk result (IsFirstEdge (FailsAt at.entry)) }
{
    let Position { edges, table, free } = at;
    if !has_judged(edges.judged, table.set(), free) {
        return Ok(None);
    }
    if free == 0 {
        return Ok(first_into(at));
    }
    if !short {
        if let Some(shorter) = table.with_short_rows(memory.alloc, free)? {
            let same = Position {
                edges,
                table: &shorter,
                free,
            };
            return first_failing(memory, same, true);
        }
    }
    let lower = Position {
        edges,
        table,
        free: free - 1,
    };
    let without = first_failing(memory, lower, false)?;
    let passes = upper_half_passes(memory.alloc, at)?;
    if passes {
        return Ok(without);
    }
    let larger = upper_table(memory, at)?;
    let upper = Position {
        edges,
        table: &larger,
        free: free - 1,
    };
    let with = first_failing(memory, upper, false)?;
    Ok(first_of(without, with))
}

/// The class table of the members of `part` that are not below `end`; None if this is the set of
/// `at.table`. `memory` is working memory.
fn part_table<'t>(
    memory: &mut PairMemory,
    at: Position<'_, 't>,
    part: Mask,
    end: VarIx,
) -> Result<Option<ClassTable<'t>>, AllocError>
    requires end { end ≤ at.free }
    requires set { at.table.now.set ≡ part / 2 ^ at.free * 2 ^ at.free }
    ensures { IfOk result
        (λ own. IsPartTable at.entry.table.now part end (table_or own at.entry.table.now)) }
{
    let mut own: Option<ClassTable<'t>> = None;
    for x in (end..at.free).rev() {
        if contains(part, x) {
            let larger = match &own {
                Some(smaller) => smaller.with_variable(memory, x)?,
                None => at.table.with_variable(memory, x)?,
            };
            own = Some(larger);
        }
    }
    Ok(own)
}

/// The first edge that fails and leads into `part` with none, some or all of the variables below
/// `end` added. `memory` is working memory.
pub(crate) fn first_in_part(
    memory: &mut PairMemory,
    at: Position,
    part: Mask,
    end: VarIx,
) -> Result<Option<Edge>, AllocError>
    requires end { end ≤ at.free }
    requires part { IsBlock at.edges.problem.now.inputs part end }
    requires set { at.table.now.set ≡ part / 2 ^ at.free * 2 ^ at.free }
    ensures { IfOk result (IsFirstEdge (FailsInBlock at.entry.edges part end)) }
{
    let Position { edges, table, .. } = at;
    if !has_judged(edges.judged, part, end) {
        return Ok(None);
    }
    match part_table(memory, at, part, end)? {
        Some(own) => {
            let own_part = Position {
                edges,
                table: &own,
                free: end,
            };
            first_failing(memory, own_part, false)
        }
        None => {
            let same = Position {
                edges,
                table,
                free: end,
            };
            first_failing(memory, same, false)
        }
    }
}
