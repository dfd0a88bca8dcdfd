//! Counts of distinct pairs by their masks, in working memory that is made once.

ghost use Rattle.std.specs.Prelude.{◌≡◌, ◌==◌, ℕ, ◌+◌, ◌*◌, ◌/◌, ◌^◌, ◌<◌, ◌≤◌, length, IfOk};
ghost use Rattle.class_tables.specs.Scratch.{AreLong, CountsMasks, most_entries};
ghost use Rattle.subfunction_classes.specs.Places as places;
ghost use Rattle.class_tables.specs.Chains.{AreFirsts};

use crate::chains::first_pairs;
use order_model::{Problem, contains};
use pair_numbering::MaskedPairs;
use std::alloc::{AllocError, Global};
use std::marker::Model;
use subfunction_classes::join_mask;

/// Working memory to count the pairs of entries in a problem's class tables: five words for each
/// entry of the largest table. The lower class of a pair is that where the variable is 0.
#[derive(Drop)]
pub struct Scratch {
    /// The first pair with each lower class, or the number of pairs.
    heads: Vec<u32>,
    /// The next pair after each with the same lower class, or the number of pairs.
    next: Vec<u32>,
    /// One more than the lower class with which each upper class was met last, or 0.
    stamps: Vec<u32>,
    /// The first pair with each upper class and the lower class that the stamp stands for.
    marks: Vec<u32>,
    /// The first pair that is equal to each.
    first: Vec<u32>,
}

impl Model for Scratch {
    ghost use Rattle.std.specs.Prelude.{ℕ, length};
    ghost use Rattle.class_tables.specs.Scratch.{AreLong};

    ghost Value = { ℕ };

    ghost view = { λ s. length s.heads.items };

    ghost invariant = { λ s. AreLong
        (length s.heads.items) s.next.items s.stamps.items s.marks.items s.first.items };
}

impl Scratch {
    /// Working memory that is long enough for all class tables of `problem`.
    pub fn of(alloc: Global, problem: &Problem) -> Result<Scratch, AllocError>
        ensures { IfOk result (λ s. s ≡ most_entries problem.now) }
    {
        let entries = (problem.outputs() as usize) << problem.inputs();
        Ok(Scratch {
            heads: vec![in alloc; 0u32; entries]?,
            next: vec![in alloc; 0u32; entries]?,
            stamps: vec![in alloc; 0u32; entries]?,
            marks: vec![in alloc; 0u32; entries]?,
            first: vec![in alloc; 0u32; entries]?,
        })
    }

    /// The width of `pairs.x`: how many distinct pairs of classes are the cofactors of a function
    /// that depends on it.
    pub fn count_joined(&mut self, pairs: &MaskedPairs<'_>) -> u32
        requires few { length pairs.now.masks.now ≤ length pairs.now.entries.numbers }
        requires long { length pairs.now.entries.numbers ≤ self.old }
        ensures count { CountsMasks pairs.now.masks.now pairs.now.x
            (places.pairs pairs.now.entries.numbers (2 ^ pairs.now.entries.rank)) result }
        ensures same { self.new ≡ self.old }
    {
        count_in(
            pairs,
            &mut self.heads,
            &mut self.next,
            &mut self.stamps,
            &mut self.marks,
            &mut self.first,
        )
    }
}

/// The width of `pairs.x`, in five slices of working memory, each with a word for each entry of the
/// table.
fn count_in(
    pairs: &MaskedPairs<'_>,
    heads: &mut [u32],
    next: &mut [u32],
    stamps: &mut [u32],
    marks: &mut [u32],
    first: &mut [u32],
) -> u32
    requires few { length pairs.now.masks.now ≤ length pairs.now.entries.numbers }
    requires rows { AreLong (length heads.old) next.old stamps.old marks.old first.old }
    requires long { length pairs.now.entries.numbers ≤ length heads.old }
    ensures { CountsMasks pairs.now.masks.now pairs.now.x
        (places.pairs pairs.now.entries.numbers (2 ^ pairs.now.entries.rank)) result }
{
    prove!(pairs.entries.rank() < 16);
    let classes = pairs.masks.len();
    let half = pairs.entries.len();
    let heads = &mut heads[..classes];
    let next = &mut next[..half];
    let stamps = &mut stamps[..classes];
    let marks = &mut marks[..classes];
    let first = &mut first[..half];
    first_pairs(&pairs.entries, heads, next, stamps, marks, first);
    count_firsts(pairs, first)
}

/// The width of `pairs.x`, where `first[j]` is the first pair equal to pair j.
fn count_firsts(pairs: &MaskedPairs<'_>, first: &[u32]) -> u32
    requires first { AreFirsts pairs.now.entries first.now }
    ensures { CountsMasks pairs.now.masks.now pairs.now.x
        (places.pairs pairs.now.entries.numbers (2 ^ pairs.now.entries.rank)) result }
{
    prove!(pairs.entries.rank() < 16);
    let masks = pairs.masks;
    let x = pairs.x;
    let mut count = 0;
    for (j, f) in first.iter().enumerate() {
        if *f as usize == j {
            let mask = join_mask(masks, x, pairs.entries.pair(j));
            count += u32::from(contains(mask, x));
        }
    }
    count
}
