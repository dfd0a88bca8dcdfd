//! Sets that a walk need not enter, because the class table of a smaller set shows that no edge
//! into them fails. The upper half of the sets where a walk stands are those with the highest free
//! variable.

ghost use Rattle.std.specs.Prelude.{◌≡◌, ℕ, ◌+◌, ◌-◌, ◌^◌, ◌<◌, ◌≤◌, false, None, length, slice_index, IfOk, IsTrue};
ghost use Rattle.std.specs.Int.{bit_at};
ghost use Rattle.edge_walks.specs.Edges.{IsFirstEdge};
ghost use Rattle.edge_walks.specs.Walks.{FailsInUpper};

use crate::position::{Edges, Position};
use crate::walk::{has_judged, has_upper_judged};
use order_model::{Mask, VarIx, contains};
use std::alloc::{AllocError, Global};

/// For each variable y, how much the values rise along the edge by y into `set`: the least width
/// with which it doesn't fail. 0 if the edge isn't to be tested.
fn needed_widths(alloc: Global, edges: Edges, set: Mask) -> Result<Vec<u32>, AllocError>
    requires { set < 2 ^ edges.problem.now.inputs }
    ensures long { IfOk result (λ v. length v.items ≡ edges.entry.problem.now.inputs) }
    ensures enough { IfOk result
        (λ v. (y : ℕ) → bit_at (slice_index edges.entry.judged.now set) y ≡ 1 →
        slice_index edges.entry.values.now set ≤ slice_index edges.entry.values.now (set - 2 ^ y) + slice_index v.items y) }
{
    let inputs = edges.problem.inputs();
    let judged = edges.judged[set as usize];
    let value = edges.values[set as usize];
    let mut needed = vec![in alloc; 0u32; inputs as usize]?;
    for y in 0..inputs {
        if contains(judged, y) {
            let from = set - (1 << y);
            needed[y as usize] = value.saturating_sub(edges.values[from as usize]);
        }
    }
    Ok(needed)
}

/// Whether an edge is to be tested into a set whose mask is above `set` and below `set` + 2^`y`.
fn has_later(judged: &[Mask], set: Mask, y: VarIx) -> bool
    requires variable { y ≤ 16 }
    requires within { set + 2 ^ y ≤ length judged.now }
    requires few { length judged.now ≤ 2 ^ 16 }
    ensures { result ≡ false → (T : ℕ) → set < T → T < set + 2 ^ y → slice_index judged.now T ≡ 0 }
{
    for z in 0..y {
        if has_judged(judged, set + (1 << z), z) {
            return true;
        }
    }
    false
}

/// Whether the certificate most likely does not list `set`: its value plus the number of variables
/// outside is at least the value of the set of all variables.
fn is_hardly_listed(edges: Edges, set: Mask) -> bool
    requires { set < 2 ^ edges.problem.now.inputs }
{
    let inputs = edges.problem.inputs();
    let outside = u32::from(inputs).saturating_sub(set.count_ones());
    let total = edges.values[(1usize << inputs) - 1];
    u64::from(edges.values[set as usize]) + u64::from(outside) >= u64::from(total)
}

/// Whether lower bounds on widths show that no edge to test into the upper half fails. If false,
/// one may fail or not. It is false at once if an edge is to be tested into a set of the half other
/// than the smallest, or if the certificate likely lists the smallest.
fn passes_by_lower_classes(alloc: Global, at: Position) -> Result<bool, AllocError>
    requires { 0 < at.free }
    ensures { IfOk result (λ none. IsTrue none → IsFirstEdge (FailsInUpper at.entry) None) }
{
    let Position { edges, table, free } = at;
    let x = free - 1;
    let set = table.set() + (1 << x);
    if !is_hardly_listed(edges, set) || has_later(edges.judged, set, x) {
        return Ok(false);
    }
    let needed = needed_widths(alloc, edges, set)?;
    table.tells_wide(alloc, x, &needed)
}

/// Whether it can be shown without another table that no edge to test into the upper half fails. If
/// false, one may fail or not.
pub(crate) fn upper_half_passes(alloc: Global, at: Position) -> Result<bool, AllocError>
    requires { 0 < at.free }
    ensures { IfOk result (λ passes. IsTrue passes → IsFirstEdge (FailsInUpper at.entry) None) }
{
    if !has_upper_judged(at) {
        return Ok(true);
    }
    passes_by_lower_classes(alloc, at)
}
