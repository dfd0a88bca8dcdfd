//! For each pair the first one that is equal to it, found without hashing and allocating. The pairs
//! with one lower class, the class where the variable is 0, form a chain, in which equal pairs are
//! found by a mark for each upper class.

ghost use Rattle.std.specs.Prelude.{◌≡◌, ℕ, ◌+◌, ◌*◌, ◌/◌, ◌^◌, ◌<◌, ◌≤◌, length, slice_index};
ghost use Rattle.class_tables.specs.Chains.{AreHeads, AreLinks, AreFirsts, AreFirstsOf, AreRowsFor, KeepsOthers};
ghost use Rattle.subfunction_classes.specs.PairTables.{AllBelow, IsPaired, IsPairTable};

use pair_numbering::EntryPairs;

/// Pairs of entries in chains: `heads[c]` is the first pair with the lower class c, and `next[j]`
/// the pair after pair j in its chain, or the number of pairs at its end.
#[derive(Drop)]
struct Chains<'e, 'r> {
    entries: &'e EntryPairs<'e>,
    heads: &'r [u32],
    next: &'r [u32],
    ghost few: { length heads.now < 2 ^ 31 },
    ghost first: { AreHeads entries.now heads.now },
    ghost after: { AreLinks entries.now next.now },
}

impl<'e, 'r> Chains<'e, 'r> {
    /// The chains that `chain` has written.
    #[inline(always)]
    fn of(entries: &'e EntryPairs<'e>, heads: &'r [u32], next: &'r [u32]) -> Chains<'e, 'r>
        requires few { length heads.now < 2 ^ 31 }
        requires heads { AreHeads entries.now heads.now }
        requires next { AreLinks entries.now next.now }
        ensures entries { result.entries.now ≡ entries.now }
        ensures classes { length result.heads.now ≡ length heads.now }
    {
        Chains {
            entries,
            heads,
            next,
        }
    }
}

/// Chains the pairs by their lower class. The number of pairs stands for the end of a chain.
fn chain(entries: &EntryPairs<'_>, heads: &mut [u32], next: &mut [u32])
    requires paired { IsPaired entries.now.numbers entries.now.rank }
    requires classes { AllBelow entries.now.numbers (length heads.old) }
    requires half { length next.old ≡ length entries.now.numbers / 2 }
    requires empty { (c : ℕ) → c < length heads.old →
        slice_index heads.old c ≡ length entries.now.numbers / 2 }
    ensures heads { AreHeads entries.now heads.new }
    ensures next { AreLinks entries.now next.new }
{
    let mut j = next.len();
    while j > 0 {
        j -= 1;
        let lower = entries.pair(j).0 as usize;
        next[j] = heads[lower];
        heads[lower] = j as u32;
    }
}

/// Writes to `first[j]`, for each pair j with the lower class `lower`, the least i for which pair i
/// is equal to pair j. `stamps` and `marks` are working memory, with an entry for each class.
#[inline(always)]
fn walk_chain(
    chains: &Chains<'_, '_>,
    lower: usize,
    stamps: &mut [u32],
    marks: &mut [u32],
    first: &mut [u32],
)
    requires rows { AreRowsFor chains.now.entries.now stamps.old marks.old first.old }
    requires lower { lower < length chains.now.heads.now }
    requires stamps { (h : ℕ) → h < length stamps.old → slice_index stamps.old h ≤ lower }
    ensures stamps { (h : ℕ) → h < length stamps.new → slice_index stamps.new h ≤ lower + 1 }
    ensures own { AreFirstsOf chains.now.entries.now lower first.new }
    ensures others { KeepsOthers chains.now.entries.now lower first.old first.new }
{
    let entries = chains.entries;
    let next = chains.next;
    let half = next.len();
    let stamp = lower as u32 + 1;
    let mut j = chains.heads[lower] as usize;
    while j < half {
        let upper = entries.pair(j).1 as usize;
        if stamps[upper] == stamp {
            first[j] = marks[upper];
        } else {
            stamps[upper] = stamp;
            marks[upper] = j as u32;
            first[j] = j as u32;
        }
        j = next[j] as usize;
    }
}

/// Writes to `first[j]`, for each pair j, the least i for which pair i is equal to pair j.
#[inline(always)]
fn first_occurrences(
    chains: &Chains<'_, '_>,
    stamps: &mut [u32],
    marks: &mut [u32],
    first: &mut [u32],
)
    requires rows { AreRowsFor chains.now.entries.now stamps.old marks.old first.old }
    requires heads_len { length chains.now.heads.now ≡ length stamps.old }
    requires stamps { (h : ℕ) → h < length stamps.old → slice_index stamps.old h ≡ 0 }
    ensures { AreFirsts chains.now.entries.now first.new }
{
    for lower in 0..chains.heads.len() {
        walk_chain(chains, lower, stamps, marks, first);
    }
}

/// Writes to `first[j]`, for each pair j, the least i for which pair i is equal to pair j. The
/// other slices are working memory.
pub(crate) fn first_pairs(
    entries: &EntryPairs<'_>,
    heads: &mut [u32],
    next: &mut [u32],
    stamps: &mut [u32],
    marks: &mut [u32],
    first: &mut [u32],
)
    requires table { IsPairTable entries.now.numbers entries.now.rank (length heads.old) }
    requires few { length heads.old < 2 ^ 31 }
    requires next_len { length next.old ≡ length entries.now.numbers / 2 }
    requires stamps_len { length stamps.old ≡ length heads.old }
    requires marks_len { length marks.old ≡ length heads.old }
    requires first_len { length first.old ≡ length entries.now.numbers / 2 }
    ensures { AreFirsts entries.now first.new }
{
    heads.fill(next.len() as u32);
    stamps.fill(0);
    chain(entries, heads, next);
    let chains = Chains::of(entries, heads, next);
    first_occurrences(&chains, stamps, marks, first);
}
