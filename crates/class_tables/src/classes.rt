ghost use Rattle.std.specs.Prelude.{◌≡◌, ◌==◌, ℕ, ◌+◌, ◌*◌, ◌^◌, ◌<◌, ◌≤◌, if◌then◌else◌, length, slice_index, IfOk, OnOk, OnErr, IsFalse, IsTrue};
ghost use Rattle.std.specs.Int.{bit_at};
ghost use Rattle.std.specs.List.{filter};
ghost use Rattle.definitions.specs.Orders.{has, without};
ghost use Rattle.definitions.specs.Widths.{class_numbers, width as width_over};
ghost use Rattle.subfunction_classes.specs.Table.{free_below};
ghost use Rattle.class_tables.specs.Scratch.{most_entries};

use crate::indexed_pairs::number_pairs_by_index;
use crate::scratch::Scratch;
use compaction::Tally;
use order_model::{Mask, Problem, VarIx, contains};
use pair_numbering::{EntryPairs, MaskedNumbers, MaskedPairs, PairMemory, number_with_masks};
use std::alloc::{AllocError, Global};
use std::marker::Model;
use subfunction_classes::{count_with, no_dependence, rank_of, value_numbers};

/// The class table of a set: which subfunctions over it are equal.
#[derive(Drop)]
pub struct Classes<'a> {
    problem: &'a Problem,
    set: Mask,
    /// The class number of each subfunction, by first occurrence: function by function, assignments
    /// of the variables outside the set rising, the lowest variable in the lowest bit.
    numbers: Vec<u32>,
    /// For each class, the variables that its subfunctions depend on.
    masks: Vec<Mask>,
}

impl<'a> Model for Classes<'a> {
    ghost use Rattle.subfunction_classes.specs.Table.{ClassesOf, HoldsClasses, classes_of};

    ghost Value = { ClassesOf };

    ghost view = { λ c. classes_of c.problem.now c.set };

    ghost invariant = { λ c. HoldsClasses
        (classes_of c.problem.now c.set) c.numbers.items c.masks.items };
}

impl<'a> Classes<'a> {
    ghost use Rattle.subfunction_classes.specs.Table.{HoldsClasses, set_of, functions_of, with_variable, classes_of};

    /// The class table of the empty set, for the functions of `problem`.
    pub fn of_problem(alloc: Global, problem: &'a Problem) -> Result<Classes<'a>, AllocError>
        ensures { IfOk result (λ c. c ≡ classes_of problem.now 0) }
    {
        let numbers = value_numbers(alloc, problem)?;
        let masks = no_dependence(alloc, &numbers)?;
        Ok(Classes {
            problem,
            set: 0,
            numbers,
            masks,
        })
    }

    /// The class table of the set `mask`, for the functions of `problem`.
    pub fn of_set(
        alloc: Global,
        problem: &'a Problem,
        mask: Mask,
    ) -> Result<Classes<'a>, AllocError>
        requires { mask < 2 ^ problem.now.inputs }
        ensures { IfOk result (λ c. c ≡ classes_of problem.now mask) }
    {
        let mut classes = Classes::of_problem(alloc, problem)?;
        for y in 0..problem.inputs() {
            if contains(mask, y) {
                classes = classes.compact(alloc, y)?;
            }
        }
        Ok(classes)
    }

    /// Whether `x` is a variable of the problem that may be added to the set.
    pub fn lacks(&self, x: VarIx) -> bool
        ensures inside { IsTrue result → x < self.now.problem.inputs }
        ensures new { IsTrue result → IsFalse (has (set_of self.now) x) }
        ensures all { x < self.now.problem.inputs → IsFalse (has (set_of self.now) x) →
            IsTrue result }
    {
        x < self.problem.inputs() && !contains(self.set, x)
    }

    /// The class number of each subfunction, by first occurrence: function by function, assignments
    /// of the variables outside the set rising, the lowest variable in the lowest bit.
    pub fn numbers(&self) -> &[u32]
        ensures { result.now ≡ class_numbers self.now.problem.inputs (functions_of self.now)
            (set_of self.now) }
    {
        self.numbers.as_slice()
    }

    /// The width of `x` over the set.
    pub fn width(&self, alloc: Global, x: VarIx, tally: &mut Tally) -> Result<u32, AllocError>
        requires inside { x < self.now.problem.inputs }
        requires new { IsFalse (has (set_of self.now) x) }
        requires room { tally.old < 2 ^ 32 }
        ensures width { IfOk result
            (λ w. w ≡ width_over self.now.problem.inputs (functions_of self.now)
            (set_of self.now) x) }
        ensures ok { OnOk result (tally.new ≡ tally.old + 1) }
        ensures err { OnErr result (tally.new ≡ tally.old) }
    {
        let next = self.compact(alloc, x)?;
        let width = next.width_into(x);
        tally.add(1);
        Ok(width)
    }

    /// The width of `x` over the set. `scratch` is working memory.
    pub fn width_in(&self, x: VarIx, scratch: &mut Scratch, tally: &mut Tally) -> u32
        requires inside { x < self.now.problem.inputs }
        requires new { IsFalse (has (set_of self.now) x) }
        requires long { most_entries self.now.problem ≤ scratch.old }
        requires room { tally.old < 2 ^ 32 }
        ensures width { result ≡ width_over self.now.problem.inputs (functions_of self.now)
            (set_of self.now) x }
        ensures tally { tally.new ≡ tally.old + 1 }
        ensures scratch { scratch.new ≡ scratch.old }
    {
        let width = scratch.count_joined(&self.pairs_by(x));
        tally.add(1);
        width
    }

    /// The width of the member `x` over the other members.
    fn width_into(&self, x: VarIx) -> u32
        requires { IsTrue (has (set_of self.now) x) }
        ensures { result ≡ width_over self.now.problem.inputs (functions_of self.now)
            (without x (set_of self.now)) x }
    {
        count_with(&self.masks, x)
    }

    /// The set that the table is of, as a mask.
    pub fn set(&self) -> Mask
        ensures { result ≡ self.now.set }
    {
        self.set
    }

    /// The class table of the set with `x` added.
    pub fn compact(&self, alloc: Global, x: VarIx) -> Result<Classes<'a>, AllocError>
        requires inside { x < self.now.problem.inputs }
        requires new { IsFalse (has (set_of self.now) x) }
        ensures { IfOk result (λ c. c ≡ with_variable self.now x) }
    {
        let numbered = number_with_masks(&mut PairMemory::new(alloc), &self.pairs_by(x))?;
        Ok(self.with_numbers(x, numbered))
    }

    /// The class table of this table's set with `x` added, with pairs numbered by an `IndexSet`:
    /// slower than `compact`, for comparison in tests.
    pub fn compact_indexed(&self, alloc: Global, x: VarIx) -> Result<Classes<'a>, AllocError>
        requires inside { x < self.now.problem.inputs }
        requires new { IsFalse (has (set_of self.now) x) }
        ensures { IfOk result (λ c. c ≡ with_variable self.now x) }
    {
        let numbered = number_pairs_by_index(alloc, &self.pairs_by(x))?;
        Ok(self.with_numbers(x, numbered))
    }

    /// The pairs of entries that differ in `x` alone, with the masks of the classes.
    fn pairs_by(&self, x: VarIx) -> MaskedPairs<'_>
        requires inside { x < self.now.problem.inputs }
        requires new { IsFalse (has (set_of self.now) x) }
        ensures classes { HoldsClasses self.now result.entries.numbers result.masks.now }
        ensures rank { result.entries.rank ≡ free_below self.now.set x }
        ensures variable { result.x ≡ x }
    {
        let rank = rank_of(self.set, x);
        MaskedPairs {
            entries: EntryPairs::of_table(&self.numbers, rank),
            masks: &self.masks,
            x,
        }
    }

    /// The class table of the set with `x` added, whose classes `numbered` has.
    fn with_numbers(&self, x: VarIx, numbered: MaskedNumbers) -> Classes<'a>
        requires inside { x < self.now.problem.inputs }
        requires classes { HoldsClasses
            (with_variable self.now x) numbered.numbers.items numbered.masks.items }
        ensures { result ≡ with_variable self.now x }
    {
        Classes {
            problem: self.problem,
            set: self.set | (1 << x),
            numbers: numbered.numbers,
            masks: numbered.masks,
        }
    }
}
