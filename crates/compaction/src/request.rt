//! Which widths are needed of the sets with one low byte.

ghost use Rattle.std.specs.Prelude.{◌≡◌, ℕ, ◌^◌, ◌%◌, ◌<◌, ◌≤◌, length, slice_index, IfOk, IsTrue};
ghost use Rattle.std.specs.Int.{bit_at};
ghost use Rattle.subset_layers.specs.Layers.{block_masks};
ghost use Rattle.compaction.specs.Requests.{AreMembersOf, IsRequest, Asks, asked};
ghost use Rattle.compaction.specs.Rows.{AreMembersAmong};

use order_model::{Mask, Pairs};
use std::alloc::{AllocError, Global};
use subset_layers::Block;
use symmetries::Orbits;

/// The widths that are needed of the sets with the low byte `low`, in a problem of `inputs`
/// variables: for that with the high byte h, those of the members in `needed[h]`.
#[derive(Drop)]
pub(crate) struct WidthRequest {
    pub(crate) inputs: u8,
    pub(crate) low: u8,
    pub(crate) needed: Vec<Mask>,
    ghost few: { inputs ≤ 16 },
    ghost request: { IsRequest inputs low needed.items },
}

/// The sets of `first` to `last` variables that are lawful by `pairs` and, if there are `orbits`,
/// the first of their orbit. The choice affects time alone, not results.
#[derive(Clone, Copy)]
pub(crate) struct Wanted<'a, 'b> {
    pub pairs: &'a Pairs,
    pub orbits: Option<&'b Orbits<'b>>,
    pub first: u32,
    pub last: u32,
}

impl<'a, 'b> Wanted<'a, 'b> {
    fn has(&self, set: Mask) -> bool {
        let size = set.count_ones();
        if size < self.first || self.last < size {
            return false;
        }
        match self.orbits {
            Some(orbits) if !orbits.is_first(set) => false,
            _ => self.pairs.lawful(set),
        }
    }
}

impl WidthRequest {
    /// A request in which no width is needed yet.
    pub(crate) fn none(alloc: Global, inputs: u8, low: u8) -> Result<WidthRequest, AllocError>
        requires inputs { inputs ≤ 16 }
        requires low { low < 2 ^ inputs }
        ensures inputs { IfOk result (λ w. w.inputs ≡ inputs) }
        ensures low { IfOk result (λ w. w.low ≡ low) }
    {
        let highs = 1usize << inputs.saturating_sub(8);
        Ok(WidthRequest {
            inputs,
            low,
            needed: vec![in alloc; 0; highs]?,
        })
    }

    pub(crate) fn try_clone(&self, alloc: Global) -> Result<WidthRequest, AllocError>
        ensures inputs { IfOk result (λ w. w.inputs ≡ self.now.inputs) }
        ensures low { IfOk result (λ w. w.low ≡ self.now.low) }
        ensures needed { IfOk result (λ w. w.needed.items ≡ self.now.needed.items) }
    {
        Ok(WidthRequest {
            inputs: self.inputs,
            low: self.low,
            needed: self.needed.to_vec(alloc)?,
        })
    }

    /// Adds `members` to the members of `set` whose widths are needed.
    pub(crate) fn add(&mut self, set: Mask, members: Mask)
        requires set { set < 2 ^ self.old.inputs }
        requires byte { set % 256 ≡ self.old.low }
        requires members { AreMembersOf self.old.inputs set members }
        ensures inputs { self.new.inputs ≡ self.old.inputs }
        ensures low { self.new.low ≡ self.old.low }
        ensures long { length self.new.needed.items ≡ length self.old.needed.items }
        ensures added { (x : ℕ) → bit_at members x ≡ 1 →
            bit_at (asked self.new.needed.items set) x ≡ 1 }
        ensures kept { (h x : ℕ) → bit_at (slice_index self.old.needed.items h) x ≡ 1 →
            bit_at (slice_index self.new.needed.items h) x ≡ 1 }
    {
        self.needed[usize::from(set >> 8)] |= members;
    }

    /// For each set i of the block, adds `needed[i]` to the members of the set whose widths are
    /// needed.
    pub(crate) fn add_block(&mut self, block: &Block, needed: &[Mask])
        requires inputs { block.now.inputs ≡ self.old.inputs }
        requires low { block.now.low ≡ self.old.low }
        requires needed { length needed.now ≡ length (block_masks block.now) }
        requires members { AreMembersAmong self.old.inputs (block_masks block.now) needed.now }
        ensures inputs { self.new.inputs ≡ self.old.inputs }
        ensures low { self.new.low ≡ self.old.low }
        ensures long { length self.new.needed.items ≡ length self.old.needed.items }
        ensures added { Asks self.new.needed.items (block_masks block.now) needed.now }
        ensures kept { (h x : ℕ) → bit_at (slice_index self.old.needed.items h) x ≡ 1 →
            bit_at (slice_index self.new.needed.items h) x ≡ 1 }
    {
        for (i, mask) in block.masks().iter().enumerate() {
            self.add(*mask, needed[i]);
        }
    }

    /// Adds those members of `set` that are in `variables`, if `set` is one of this request's sets.
    pub(crate) fn add_members(&mut self, set: Mask, variables: Mask) {
        if u32::from(set) < 1u32 << self.inputs && set % 256 == Mask::from(self.low) {
            self.add(set, variables & set);
        }
    }

    pub(crate) fn is_empty(&self) -> bool {
        self.needed.iter().all(|members| *members == 0)
    }

    /// Adds all members of each of the wanted sets that has this request's low byte.
    pub(crate) fn add_sets(&mut self, wanted: &Wanted<'_, '_>) {
        for high in 0..self.needed.len().min(256) as Mask {
            let set = high * 256 + Mask::from(self.low);
            if wanted.has(set) {
                self.add_members(set, set);
            }
        }
    }
}
