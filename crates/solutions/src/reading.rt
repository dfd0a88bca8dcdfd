//! Reads the first order of the fewest nodes, and its level counts, off the cells of all sets.

ghost use Rattle.std.specs.Prelude.{◌≡◌, length};
ghost use Rattle.layer_core.specs.Instances.{InstanceOf};
ghost use Rattle.solutions.specs.Bounded.{AreCellsOfAll, HoldsCells};
ghost use Rattle.solutions.specs.Solutions.{IsReadFor};

use order_model::{Mask, VarIx};
use subset_layers::Cell;

/// Writes the first order of the fewest nodes to `order`, top first, and its level counts to
/// `levels`, and returns its size. `cells[m]` is the cell of the set with the mask m. The order is
/// the variable in the cell of the set of all variables, then the one in the cell of the set
/// without it, and so on; the cost falls from set to set by the level count.
pub fn read_optimum(cells: &[Cell], order: &mut [VarIx], levels: &mut [u32]) -> u32
    requires cells { AreCellsOfAll (length order.old) cells.now }
    requires counts { length levels.old ≡ length order.old }
    ensures optimum { (t : InstanceOf) → HoldsCells t cells.now →
        t.problem.inputs ≡ length order.old → IsReadFor t order.new levels.new result }
    ensures places { length order.new ≡ length order.old }
    ensures counts { length levels.new ≡ length levels.old }
{
    let mut set = (cells.len() - 1) as Mask;
    let size = cells[set as usize].cost;
    let mut cost = size;
    for place in 0..order.len() {
        let x = cells[set as usize].variable;
        order[place] = x;
        set -= 1 << x;
        let below = cells[set as usize].cost;
        levels[place] = cost - below;
        cost = below;
    }
    size
}
