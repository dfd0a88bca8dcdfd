//! Pairs of a table's entries, which stand in a row or in strips. Pairs come in blocks of 2^rank,
//! in which the entries with the variable at 0 are contiguous, and so are those with it at 1. These
//! aren't the blocks of a layer.

ghost use Rattle.std.specs.Prelude.{◌≡◌, ℕ, ◌+◌, ◌*◌, ◌/◌, ◌^◌, ◌<◌, ◌≤◌, length, slice_index, get_or, IsTrue};
ghost use Rattle.subfunction_classes.specs.Places as places;
ghost use Rattle.subfunction_classes.specs.PairTables.{AreOwn, IsPaired};
ghost use Rattle.subfunction_classes.specs.Strips.{AreNamed, names_of, unrolled};

use crate::numbers::are_in_order;
use std::marker::Model;

/// The pairs of a class table's entries that differ in one variable alone.
#[derive(Drop)]
pub struct EntryPairs<'a> {
    /// The class numbers of the entries, or those of the stored strips, one after the other.
    numbers: &'a [u32],
    /// For each block of pairs, the strip where the variable is 0 and the one where it is 1.
    names: Option<&'a [(u32, u32)]>,
    /// A block has 2^rank pairs.
    rank: u32,
    /// 2^rank, stored so that loops over a block end at a plain number: an index below `1 << rank`
    /// is tested by a shift, and the compiler makes no vectors of such a loop.
    step: usize,
}

impl<'a> Model for EntryPairs<'a> {
    ghost use Rattle.std.specs.Prelude.{◌≡◌, ◌^◌};
    ghost use Rattle.pair_numbering.specs.Strips.{PairedTable, IsLaid, laid_out};

    ghost Value = { PairedTable };

    ghost view = { λ e. record {
      numbers = laid_out (λ r. r.now) e.names e.numbers.now (2 ^ e.rank);
      rank = e.rank;
    } };

    ghost invariant = { λ e. IsLaid (λ r. r.now) e.names e.numbers.now e.rank
        × (e.step ≡ 2 ^ e.rank) };
}

/// The entries of a block where the variable is 0, and those where it is 1. A loop over it ends at
/// `low.len()`, not at `1 << rank` (see `EntryPairs::step`).
#[derive(Clone, Copy, Debug)]
pub(crate) struct BlockHalves<'a> {
    pub(crate) low: &'a [u32],
    pub(crate) high: &'a [u32],
}

/// Strip number `name` of `numbers`, which has strips of `step` entries.
#[inline(always)]
fn strip_at(numbers: &[u32], step: usize, name: usize) -> &[u32]
    requires inside { name * step + step ≤ length numbers.now }
    requires few { length numbers.now < 2 ^ 32 }
    ensures long { length result.now ≡ step }
    ensures entries { (i : ℕ) → i < step →
        slice_index result.now i ≡ slice_index numbers.now (name * step + i) }
{
    &numbers[name * step..name * step + step]
}

impl<'a> EntryPairs<'a> {
    /// The pairs of entries of the class table `numbers`. `rank` is how many variables outside the
    /// table's set are below the one that differs: entry i, if bit `rank` of i is 0, is paired with
    /// entry i + 2^rank.
    #[inline(always)]
    pub fn of_table(numbers: &'a [u32], rank: u32) -> EntryPairs<'a>
        requires { IsPaired numbers.now rank }
        ensures numbers { result.numbers ≡ numbers.now }
        ensures rank { result.rank ≡ rank }
    {
        EntryPairs {
            numbers,
            names: None,
            rank,
            step: 1 << rank,
        }
    }

    /// The pairs of entries of a class table in strips of 2^bits entries. `names[k]` has two strips
    /// whose entries are paired: where the variable is 0, and where it is 1.
    #[inline(always)]
    pub fn of_strips(names: &'a [(u32, u32)], numbers: &'a [u32], bits: u32) -> EntryPairs<'a>
        requires named { AreNamed (names_of names.now) numbers.now (2 ^ bits) }
        requires bits { bits < 16 }
        requires few { length numbers.now ≤ 2 ^ 20 }
        requires small { length names.now * 2 * 2 ^ bits ≤ 2 ^ 20 }
        ensures numbers { result.numbers ≡ unrolled (names_of names.now) numbers.now (2 ^ bits) }
        ensures rank { result.rank ≡ bits }
    {
        EntryPairs {
            numbers,
            names: Some(names),
            rank: bits,
            step: 1 << bits,
        }
    }

    /// The rank r: 2^r pairs are a block.
    #[inline(always)]
    pub fn rank(&self) -> u32
        ensures rank { result ≡ self.now.rank }
        ensures paired { IsPaired self.now.numbers self.now.rank }
    {
        self.rank
    }

    /// How many pairs there are.
    #[inline(always)]
    pub fn len(&self) -> usize
        ensures count { result ≡ length self.now.numbers / 2 }
        ensures few { length self.now.numbers < 2 ^ 32 }
    {
        match self.names {
            None => self.numbers.len() / 2,
            Some(names) => names.len() << self.rank,
        }
    }

    /// Whether the table stands in a row and each entry is its place. False for a table in strips.
    #[inline(always)]
    pub(crate) fn are_places(&self) -> bool
        ensures { IsTrue result → AreOwn self.now.numbers }
    {
        match self.names {
            None => are_in_order(self.numbers),
            Some(_) => false,
        }
    }

    #[inline(always)]
    pub(crate) fn block(&self, block: usize) -> BlockHalves<'a>
        requires { block < length self.now.numbers / 2 / 2 ^ self.now.rank }
        ensures low_len { length result.low.now ≡ 2 ^ self.now.rank }
        ensures high_len { length result.high.now ≡ 2 ^ self.now.rank }
        ensures pairs { (i : ℕ) → i < 2 ^ self.now.rank →
            (slice_index result.low.now i, slice_index result.high.now i)
            ≡ get_or (places.pairs self.now.numbers (2 ^ self.now.rank))
            (block * 2 ^ self.now.rank + i) (0, 0) }
    {
        let (low, high) = match self.names {
            None => (2 * block, 2 * block + 1),
            Some(names) => {
                let (low, high) = names[block];
                (low as usize, high as usize)
            }
        };
        BlockHalves {
            low: strip_at(self.numbers, self.step, low),
            high: strip_at(self.numbers, self.step, high),
        }
    }

    /// Pair `j`: the entry where the variable is 0, and the entry where it is 1.
    #[inline(always)]
    pub fn pair(&self, j: usize) -> (u32, u32)
        requires { j < length self.now.numbers / 2 }
        ensures { result ≡ places.pair_at self.now.numbers (2 ^ self.now.rank) j }
    {
        let block = self.block(j >> self.rank);
        let i = j & ((1usize << self.rank) - 1);
        (block.low[i], block.high[i])
    }
}
