//! The cell of a set, from the costs of the sets with one variable less.

ghost use Rattle.std.specs.Prelude.{Option, ◌≡◌, ℕ, ◌+◌, ◌^◌, ◌<◌, ◌≤◌, List, slice_index, IfSome, IsNone, IsTrue};
ghost use Rattle.definitions.specs.Orders.{has, members, IsOrder};
ghost use Rattle.definitions.specs.Pairs.{Pair, Keeps, is_lawful};
ghost use Rattle.definitions.specs.Cells.{first_of};
ghost use Rattle.subset_layers.specs.Costs.{as_pair, IsCellFrom};
ghost use Rattle.subset_layers.specs.Sums.{IsBest};

use crate::costs::Cell;
use order_model::{LowerBounds, Mask, VarIx, WidthRow, next_member};

/// The cost of a set without its member `variable`, plus this member's width.
#[derive(Clone, Copy)]
struct Sum {
    sum: u64,
    variable: VarIx,
}

/// `best` if it is not None and its sum is at most that of `next`, else `next`.
fn smaller(best: Option<Sum>, next: Sum) -> Sum
    ensures none { best ≡ None → result ≡ next }
    ensures some { IfSome best
        (λ b. (b.sum ≤ next.sum → result ≡ b) × (next.sum < b.sum → result ≡ next)) }
{
    match best {
        Some(earlier) if earlier.sum <= next.sum => earlier,
        _ => next,
    }
}

/// The least sum `below[x] + widths[x]` over the members x of the set `mask` with `below[x]` at
/// most `bound`, and the smallest x that gives it; None if there is none.
fn best_sum(mask: Mask, inputs: u8, below: &[u32; 16], widths: &WidthRow, bound: u32) -> Option<Sum>
    requires few { inputs ≤ 16 }
    requires within { mask < 2 ^ inputs }
    ensures best { IfSome result
        (λ s. IsBest (λ x. IsTrue (has (members inputs mask) x)) bound (slice_index below.now)
        (slice_index widths.now) s.sum s.variable) }
    ensures none { IsNone result → (y : ℕ) → IsTrue (has (members inputs mask) y) →
        bound < slice_index below.now y }
{
    let mut best: Option<Sum> = None;
    let mut from = 0;
    while let Some(x) = next_member(mask, from) {
        let cost = below[x as usize];
        if cost <= bound {
            let sum = cost as u64 + widths[x as usize] as u64;
            best = Some(smaller(best, Sum { sum, variable: x }));
        }
        from = x + 1;
    }
    best
}

/// The cell of the set `mask` if it is pruned.
pub fn clipped_cell(mask: Mask, bound: u32) -> Cell
    requires some { 0 < mask }
    requires room { bound + 1 < 2 ^ 32 }
    ensures { (n : ℕ) → mask < 2 ^ n → as_pair result ≡ (bound + 1, first_of (members n mask)) }
{
    Cell {
        cost: bound + 1,
        variable: mask.trailing_zeros() as u8,
    }
}

/// The cell of the lawful set `mask`: the least sum `below[x] + widths[x]` over its members x, and
/// the smallest x that gives it. `below[x]` is the cost of the set without x, and `widths[x]` the
/// width of x over the other members. If the sum plus the lower bound on the nodes above exceeds
/// `bound`, the set is pruned. By variables `widths[x]` isn't read where `below[x]` exceeds
/// `bound`.
pub fn lawful_cell(
    mask: Mask,
    inputs: u8,
    below: &[u32; 16],
    widths: &WidthRow,
    bound: u32,
    lower_bounds: &LowerBounds<'_>,
) -> Cell
    requires some { 0 < mask }
    requires within { mask < 2 ^ inputs }
    requires few { inputs ≤ 16 }
    requires functions { lower_bounds.now.problem.inputs ≡ inputs }
    requires room { bound + 1 < 2 ^ 32 }
    ensures { (P : List Pair) (order : List ℕ) →
        IsOrder lower_bounds.now.problem.inputs order → Keeps P order →
        IsTrue (is_lawful P (members lower_bounds.now.problem.inputs mask)) →
        IsCellFrom lower_bounds.now P bound mask below.now widths.now (as_pair result) }
{
    match best_sum(mask, inputs, below, widths, bound) {
        None => clipped_cell(mask, bound),
        Some(best) => {
            if best.sum + lower_bounds.above(mask, widths) <= u64::from(bound) {
                Cell {
                    cost: best.sum as u32,
                    variable: best.variable,
                }
            } else {
                clipped_cell(mask, bound)
            }
        }
    }
}
