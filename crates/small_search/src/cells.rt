//! The cell of a set from those of smaller sets.

ghost use Rattle.std.specs.Prelude.{◌≡◌, ◌^◌, ◌<◌};
ghost use Rattle.definitions.specs.Orders.{members};
ghost use Rattle.definitions.specs.Pairs.{is_lawful};
ghost use Rattle.layer_core.specs.Pairing.{pair_of};
ghost use Rattle.layer_core.specs.Instances.{cell_for};
ghost use Rattle.subfunction_classes.specs.Table.{classes_of};
ghost use Rattle.small_search.specs.FirstCells.{AreFewCells, IsFew};
ghost use Rattle.small_search.specs.Occurrences.{AreOf};

use crate::instance::{NO_BOUND, SmallSearch};
use crate::width_counts::Subfunctions;
use order_model::{Mask, next_member};
use subset_layers::Cell;

/// The cell of `set`: the least sum, over its members x, of the cost of the set without x and the
/// width of x over it, and the smallest x that gives it. If all these costs exceed `NO_BOUND`, or
/// the set isn't lawful, the cost is `NO_BOUND` + 1. `cells[m]` is the cell of the set with the
/// mask m.
pub(crate) fn cell_of_set(
    search: &SmallSearch<'_>,
    cells: &[Cell],
    subfunctions: &Subfunctions<'_>,
    set: Mask,
    lawful: bool,
) -> Cell
    requires some { 0 < set }
    requires within { set < 2 ^ search.now.problem.inputs }
    requires cells { AreFewCells search.now set cells.now }
    requires subfunctions { AreOf (classes_of search.now.problem set) subfunctions.now }
    requires lawful { lawful ≡ is_lawful search.now.pairs.pairs
        (members search.now.problem.inputs set) }
    ensures cell { pair_of result ≡ cell_for search.now set }
    ensures few { IsFew search.now set result.cost }
{
    prove!(search.inputs() <= 16);
    let mut best = Cell {
        cost: NO_BOUND + 1,
        variable: set.trailing_zeros() as u8,
    };
    if !lawful {
        return best;
    }
    let mut place = set.count_ones();
    let mut from = 0;
    while let Some(x) = next_member(set, from) {
        place -= 1;
        let below = cells[(set - (1 << x)) as usize].cost;
        if below <= NO_BOUND {
            let cost = below + subfunctions.width(x, place);
            if cost < best.cost {
                best = Cell { cost, variable: x };
            }
        }
        from = x + 1;
    }
    best
}
