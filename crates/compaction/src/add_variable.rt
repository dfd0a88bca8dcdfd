//! Adds one more variable to class tables in strips: strips are paired by it, and the pairs of
//! their entries are numbered.

ghost use Rattle.std.specs.Prelude.{◌<◌, IfOk};
ghost use Rattle.compaction.specs.Strips.{GrowsStrips};

use order_model::{Mask, VarIx};
use pair_numbering::{EntryPairs, MaskedPairs, PairKeys, PairMemory, are_in_order, label_pairs};
use std::alloc::AllocError;
use std::marker::Model;
use std::mem;

/// A class table in strips, and the rank of a variable by which its strips are to be paired. The
/// name of a strip is its number.
#[derive(Drop)]
pub(crate) struct StripTable<'a> {
    /// Function by function, for each assignment of the variables that are outside the set and
    /// above those inside a strip, the name of its strip.
    pub(crate) outer: &'a [u32],
    /// How many of the variables that `outer` has assignments of are below the one by which strips
    /// are paired: names 2^rank apart in `outer` are a pair.
    pub(crate) rank: u32,
    /// The class numbers in the strips, one strip after the other.
    pub(crate) numbers: &'a [u32],
    /// How many variables stand inside a strip: it has 2^bits entries.
    pub(crate) bits: u32,
    /// For each class number, the mask of the variables that its subfunctions depend on.
    pub(crate) masks: &'a [Mask],
}

impl<'a> Model for StripTable<'a> {
    ghost use Rattle.compaction.specs.Strips.{IsStripTable, StripTableOf};

    ghost Value = { StripTableOf };

    ghost view = { λ t. record {
      outer = t.outer.now;
      rank = t.rank;
      numbers = t.numbers.now;
      bits = t.bits;
      masks = t.masks.now;
    } };

    ghost invariant = { λ t. IsStripTable t.outer.now t.rank t.numbers.now t.bits t.masks.now };
}

/// Adds the high variable `x` to the set of `table`. Returns the strip names of the larger set's
/// class table, and its class numbers with their masks. A new name is the number, by first
/// occurrence, of a pair of strips that differ in `x` alone. `table.rank` is the number of high
/// variables below `x` outside the set.
pub(crate) fn add_above(
    memory: &mut PairMemory,
    table: &StripTable<'_>,
    x: VarIx,
) -> Result<(Vec<u32>, PairKeys), AllocError>
    requires { x < 16 }
    ensures { IfOk result (λ r.
        GrowsStrips table.now x r.0.items r.1.numbers.items r.1.masks.items) }
{
    if are_in_order(table.outer) {
        // Each strip is named once, so the pairs of strips are all distinct and in order, too.
        let pairs = MaskedPairs {
            entries: EntryPairs::of_table(table.numbers, table.bits + table.rank),
            masks: table.masks,
            x,
        };
        let keys = label_pairs(memory, &pairs)?;
        let outer = table.outer[..table.outer.len() / 2].to_vec(memory.alloc)?;
        return Ok((outer, keys));
    }
    let strips = table.numbers.len() >> table.bits;
    let names = EntryPairs::of_table(table.outer, table.rank);
    let mut outer = Vec::new(memory.alloc);
    memory.number(&names, strips, &mut outer)?;
    // The entries are numbered in the same memory while the pairs of strips are still read.
    let spare = mem::replace(&mut memory.spare, Vec::new(memory.alloc));
    let strip_pairs = mem::replace(&mut memory.pairs, spare);
    let pairs = MaskedPairs {
        entries: EntryPairs::of_strips(&strip_pairs, table.numbers, table.bits),
        masks: table.masks,
        x,
    };
    let keys = label_pairs(memory, &pairs)?;
    memory.spare = strip_pairs;
    Ok((outer, keys))
}
