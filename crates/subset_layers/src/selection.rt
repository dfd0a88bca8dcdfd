//! Numbers chosen below a limit, with a table of their places.

ghost use Rattle.subset_layers.specs.Selections.{ArePlaced};
ghost use Rattle.std.specs.Prelude.{◌≡◌, ℕ, ◌<◌, ◌≤◌, ◌≢◌, length, slice_index, slice_get, IfOk, IfSome, IsNone, ◌^◌};

use std::alloc::{AllocError, Global};

/// Chosen numbers below a limit, with a table that finds the place of each.
#[derive(Drop)]
pub(crate) struct Selection {
    /// The chosen numbers, rising.
    pub numbers: Vec<u16>,
    /// Entry k: the place of k in `numbers`, if k is chosen.
    pub places: Vec<u16>,
    ghost placed: { ArePlaced numbers.items places.items },
}

impl Selection {
    ghost use Rattle.subset_layers.specs.Selections.{chosen};

    /// The numbers k for which `flags[k]` is true, rising.
    pub fn of(alloc: Global, flags: &[bool]) -> Result<Selection, AllocError>
        requires { length flags.now ≤ 2 ^ 16 }
        ensures { IfOk result (λ s. s.numbers.items ≡ chosen flags.now) }
    {
        let mut numbers = Vec::new(alloc);
        let mut places = vec![in alloc; 0; flags.len()]?;
        for (number, is_chosen) in flags.iter().enumerate() {
            if *is_chosen {
                places[number] = numbers.len() as u16;
                numbers.push(number as u16)?;
            }
        }
        Ok(Selection { numbers, places })
    }

    pub fn try_clone(&self, alloc: Global) -> Result<Selection, AllocError>
        ensures { IfOk result (λ s. s.numbers.items ≡ self.now.numbers.items) }
    {
        Ok(Selection {
            numbers: self.numbers.to_vec(alloc)?,
            places: self.places.to_vec(alloc)?,
        })
    }

    /// The place of `number` in `numbers`. None if it isn't chosen.
    pub fn position(&self, number: u16) -> Option<usize>
        ensures found { IfSome result (λ i. slice_get self.now.numbers.items i ≡ Some number) }
        ensures none { IsNone result → (i : ℕ) → i < length self.now.numbers.items →
            slice_index self.now.numbers.items i ≢ number }
    {
        let place = *self.places.get(number as usize)? as usize;
        if place < self.numbers.len() && self.numbers[place] == number {
            Some(place)
        } else {
            None
        }
    }
}
