//! Numbers of pairs by first occurrence, and their masks. If a table's entries are 0, 1, 2 and so
//! on, so are the numbers of its pairs. Others are found by cells if there are few classes, else by
//! slots, or by an `IndexSet` if there are too many pairs for slots or these are crowded.

ghost use Rattle.std.specs.Prelude.{◌≡◌, ℕ, ◌*◌, ◌^◌, ◌<◌, ◌≤◌, length, OnOk};
ghost use Rattle.subfunction_classes.specs.PairTables.{IsPairTable};
ghost use Rattle.pair_numbering.specs.Numbers.{ArePairsNumbered};
ghost use Rattle.pair_numbering.specs.MaskedNumbers.{NumbersMasked};

use crate::cells::number_pairs_by_cells;
use crate::entries::EntryPairs;
use crate::index::index_entries;
use crate::masks::{MaskedPairs, join_masks};
use crate::numbers::{MaskedNumbers, number_distinct_pairs};
use crate::slots::number_pairs_by_slots;
use std::alloc::{AllocError, Global};

/// Pairs are numbered by cells if there are at most this many cells for each pair.
const MOST_CELLS_PER_PAIR: usize = 16;

/// Working memory in which pairs are numbered.
#[derive(Drop)]
pub struct PairMemory {
    pub alloc: Global,
    /// After a call of `number`: `pairs[k]` is the pair with the number k.
    pub pairs: Vec<(u32, u32)>,
    /// Room for a second list of pairs. A caller that needs `pairs` during the next numbering takes
    /// the list out, puts this one in its place, and puts it here when it is done.
    pub spare: Vec<(u32, u32)>,
    /// How many pairs have each class as their lower class (`CountedPairs`).
    pub(crate) counts: Vec<u8>,
    /// Slots of a hash table, each with the number of a pair (`slots.rt`).
    pub(crate) slots: Vec<u16>,
    /// A cell for each possible pair (`cells.rt`).
    pub(crate) cells: Vec<u16>,
}

impl PairMemory {
    /// Memory that is empty: a numbering takes what it needs.
    pub fn new(alloc: Global) -> PairMemory {
        PairMemory {
            alloc,
            pairs: Vec::new(alloc),
            spare: Vec::new(alloc),
            counts: Vec::new(alloc),
            slots: Vec::new(alloc),
            cells: Vec::new(alloc),
        }
    }

    /// Overwrites `numbers` with the number of each pair, and `self.pairs` with the pair of each
    /// number. If memory is refused, the two have no meaning.
    pub fn number(
        &mut self,
        entries: &EntryPairs<'_>,
        classes: usize,
        numbers: &mut Vec<u32>,
    ) -> Result<(), AllocError>
        requires { IsPairTable entries.now.numbers entries.now.rank classes }
        ensures { OnOk result
            (ArePairsNumbered entries.now.numbers entries.now.rank numbers.new.items
            self.new.pairs.items) }
    {
        if number_pairs_by_slots(entries, classes, self, numbers)? {
            return Ok(());
        }
        let found = index_entries(self.alloc, entries)?;
        *numbers = found.numbers;
        self.pairs = found.pairs;
        Ok(())
    }

    /// Overwrites `to` with the number of each pair and the mask of each number. If memory is
    /// refused, `to` has no meaning.
    pub fn write_numbers(
        &mut self,
        pairs: &MaskedPairs<'_>,
        to: &mut MaskedNumbers,
    ) -> Result<(), AllocError>
        ensures { OnOk result (NumbersMasked pairs.now to.new.numbers.items to.new.masks.items) }
    {
        prove!(pairs.entries.rank() < 16);
        let classes = pairs.masks.len();
        // with fewer classes than entries some are equal
        if classes == 2 * pairs.entries.len() && pairs.entries.are_places() {
            return number_distinct_pairs(pairs, to);
        }
        if classes * classes <= MOST_CELLS_PER_PAIR * pairs.entries.len() {
            if number_pairs_by_cells(pairs, &mut self.cells, to)? {
                return Ok(());
            }
        }
        self.number(&pairs.entries, classes, &mut to.numbers)?;
        join_masks(&self.pairs, pairs.x, pairs.masks, &mut to.masks)?;
        Ok(())
    }
}
