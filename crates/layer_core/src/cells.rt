//! The cell of a set, from what it needs and the widths of its members.

ghost use Rattle.std.specs.Prelude.{◌≡◌, ◌≢◌, ◌^◌, ◌<◌};
ghost use Rattle.layer_core.specs.Instances.{cell_for};
ghost use Rattle.layer_core.specs.Needs.{AreNeedsOf, HasNeeded, needed};
ghost use Rattle.layer_core.specs.Pairing.{pair_of};

use crate::instance::Instance;
use crate::needs::SetNeeds;
use order_model::{Mask, WidthRow};
use subset_layers::{Cell, clipped_cell, lawful_cell};

impl<'a> Instance<'a> {
    /// The cell of the set `mask`, which takes no widths: the set is pruned, whatever they are.
    pub fn pruned_cell(&self, mask: Mask) -> Cell
        requires some { 0 < mask }
        requires within { mask < 2 ^ self.now.problem.inputs }
        requires none { needed self.now mask ≡ 0 }
        ensures { pair_of result ≡ cell_for self.now mask }
    {
        prove!(self.pairs().inputs() <= 16);
        clipped_cell(mask, self.limit().bound)
    }

    /// The cell of the set `mask`, which takes widths: those in `widths`.
    pub fn cell(&self, mask: Mask, needs: &SetNeeds, widths: &WidthRow) -> Cell
        requires within { mask < 2 ^ self.now.problem.inputs }
        requires needs { AreNeedsOf self.now mask needs.now }
        requires some { needs.now.members ≢ 0 }
        requires widths { HasNeeded self.now mask widths.now }
        ensures { pair_of result ≡ cell_for self.now mask }
    {
        let inputs = self.pairs().inputs();
        let bound = self.limit().bound;
        lawful_cell(
            mask,
            inputs,
            &needs.below,
            widths,
            bound,
            self.lower_bounds(),
        )
    }
}
