//! Class tables of sets of variables, as the checker's walk makes them.

ghost use Rattle.std.specs.Prelude.{◌≡◌, ◌==◌, ℕ, ◌+◌, ◌%◌, ◌^◌, ◌<◌, ◌≤◌, length, slice_index, IfOk, IfSome, IsTrue};
ghost use Rattle.std.specs.Int.{bit_at};
ghost use Rattle.std.specs.List.{filter};
ghost use Rattle.definitions.specs.Orders.{has, without};
ghost use Rattle.definitions.specs.Widths.{width as width_over};
ghost use Rattle.subfunction_classes.specs.Table.{set_of};
ghost use Rattle.edge_walks.specs.LowerClasses.{IsWide};
ghost use Rattle.edge_walks.specs.Tables.{HoldsRows, classes_at, rows_at, rows_with, table_at};

use crate::lower_classes::are_wide;
use crate::repeats::without_repeats;
use order_model::{Mask, Problem, VarIx, contains};
use pair_numbering::{
    EntryPairs, MaskedNumbers, MaskedPairs, PairMemory, are_in_order, number_with_masks,
};
use std::alloc::{AllocError, Global};
use std::marker::Model;
use subfunction_classes::{count_with, no_dependence, value_numbers};

/// The class table of a set: for each function and each assignment of the other variables, the
/// class number of the subfunction, by first occurrence. Rows of entries that repeat an earlier row
/// may be left out, because they lead to no other pairs of classes.
#[derive(Drop)]
pub(crate) struct ClassTable<'a> {
    problem: &'a Problem,
    set: Mask,
    // No member of the set is below `level`; it is the number of variables for the empty set. Rows
    // of 2^`level` entries that repeat an earlier row may be left out.
    level: VarIx,
    // The number of subfunctions, if all are distinct and depend on the whole set: `numbers` and
    // `masks` are then empty.
    full: Option<u32>,
    /// The class numbers of the entries that aren't left out.
    numbers: Vec<u32>,
    /// For each class, the variables that its subfunctions depend on.
    masks: Vec<Mask>,
}

impl<'a> Model for ClassTable<'a> {
    ghost use Rattle.edge_walks.specs.Tables.{HoldsTable, TableOf, table_at};

    ghost Value = { TableOf };

    ghost view = { λ c. table_at c.problem.now c.set c.level };

    ghost invariant = { λ c. HoldsTable
        (table_at c.problem.now c.set c.level) c.full c.numbers.items c.masks.items };
}

/// Repeated rows of 2^y entries are looked for at these y.
const SHORT_LEVELS: [VarIx; 4] = [3, 5, 7, 10];

fn are_whole(masks: &[Mask], set: Mask) -> bool
    ensures { IsTrue result → (i : ℕ) → i < length masks.now → slice_index masks.now i ≡ set }
{
    for mask in masks {
        if *mask != set {
            return false;
        }
    }
    true
}

/// The class table of `set`, of whose entries `numbered` may lack repeated rows. If all
/// subfunctions are distinct and depend on the whole set, only their count is kept.
fn table_of<'a>(
    alloc: Global,
    problem: &'a Problem,
    set: Mask,
    level: VarIx,
    numbered: MaskedNumbers,
) -> ClassTable<'a>
    requires { HoldsRows (table_at problem.now set level) numbered.numbers.items
        numbered.masks.items }
    ensures { result ≡ table_at problem.now set level }
{
    let MaskedNumbers { numbers, masks } = numbered;
    if masks.len() == numbers.len() && are_whole(&masks, set) && are_in_order(&numbers) {
        return ClassTable {
            problem,
            set,
            level,
            full: Some(masks.len() as u32),
            numbers: Vec::new(alloc),
            masks: Vec::new(alloc),
        };
    }
    ClassTable {
        problem,
        set,
        level,
        full: None,
        numbers,
        masks,
    }
}

impl<'a> ClassTable<'a> {
    ghost use Rattle.subfunction_classes.specs.Table.{functions_of};

    pub(crate) fn of_problem(
        alloc: Global,
        problem: &'a Problem,
    ) -> Result<ClassTable<'a>, AllocError>
        ensures { IfOk result (λ c. c ≡ table_at problem.now 0 problem.now.inputs) }
    {
        let numbers = value_numbers(alloc, problem)?;
        let masks = no_dependence(alloc, &numbers)?;
        Ok(ClassTable {
            problem,
            set: 0,
            level: problem.inputs(),
            full: None,
            numbers,
            masks,
        })
    }

    pub(crate) fn set(&self) -> Mask
        ensures { result ≡ self.now.set }
    {
        self.set
    }

    /// This table without rows of 2^`y` entries that repeat an earlier row; some may stay. None if
    /// no repeat is found in the first half of the entries, if `y` isn't in `SHORT_LEVELS`, or if
    /// such rows may be left out already.
    pub(crate) fn with_short_rows(
        &self,
        alloc: Global,
        y: VarIx,
    ) -> Result<Option<ClassTable<'a>>, AllocError>
        requires some { 0 < y }
        requires inside { y ≤ self.now.problem.inputs }
        requires free { self.now.set % 2 ^ y ≡ 0 }
        ensures { IfOk result
            (λ c. IfSome c (λ t. (t ≡ rows_at self.now y) × (y < self.now.level))) }
    {
        if !SHORT_LEVELS.contains(&y) || self.level <= y {
            return Ok(None);
        }
        match self.full {
            Some(_) => Ok(None),
            None => {
                let shorter = without_repeats(alloc, &self.numbers, y)?;
                let Some(numbers) = shorter else {
                    return Ok(None);
                };
                let mut masks = Vec::with_capacity(alloc, self.masks.len())?;
                masks.extend_from_slice(&self.masks)?;
                Ok(Some(ClassTable {
                    problem: self.problem,
                    set: self.set,
                    level: y,
                    full: None,
                    numbers,
                    masks,
                }))
            }
        }
    }

    /// The class table of this table's set with `x`, a smaller variable, added. `memory` is working
    /// memory.
    pub(crate) fn with_variable(
        &self,
        memory: &mut PairMemory,
        x: VarIx,
    ) -> Result<ClassTable<'a>, AllocError>
        requires inside { x < self.now.problem.inputs }
        requires below { x < self.now.level }
        requires free { self.now.set % 2 ^ (x + 1) ≡ 0 }
        ensures { IfOk result (λ c. c ≡ rows_with self.now x) }
    {
        let set = self.set | (1 << x);
        match self.full {
            Some(count) => Ok(ClassTable {
                problem: self.problem,
                set,
                level: x,
                full: Some(count / 2),
                numbers: Vec::new(memory.alloc),
                masks: Vec::new(memory.alloc),
            }),
            None => {
                let pairs = MaskedPairs {
                    entries: EntryPairs::of_table(&self.numbers, u32::from(x)),
                    masks: &self.masks,
                    x,
                };
                let numbered = number_with_masks(memory, &pairs)?;
                Ok(table_of(memory.alloc, self.problem, set, x, numbered))
            }
        }
    }

    /// Whether a lower bound shows that each member y of the set with `x` added has at least the
    /// width `needed[y]`, or 0 behind the end of `needed`. If false, it may have it nevertheless.
    /// Makes no table.
    pub(crate) fn tells_wide(
        &self,
        alloc: Global,
        x: VarIx,
        needed: &[u32],
    ) -> Result<bool, AllocError>
        requires inside { x < self.now.problem.inputs }
        requires below { x < self.now.level }
        requires free { self.now.set % 2 ^ (x + 1) ≡ 0 }
        requires variables { length needed.now ≤ 16 }
        ensures { IfOk result
            (λ wide. IsTrue wide → IsWide (rows_with self.now x) needed.now) }
    {
        match self.full {
            Some(_) => Ok(false),
            None => are_wide(alloc, &self.numbers, &self.masks, x, needed),
        }
    }

    /// The width of the member `x` over the other members.
    pub(crate) fn width_into(&self, x: VarIx) -> u32
        requires { IsTrue (has (set_of (classes_at self.now)) x) }
        ensures { result ≡ width_over self.now.problem.inputs (functions_of (classes_at self.now))
            (without x (set_of (classes_at self.now))) x }
    {
        match self.full {
            Some(count) => count,
            None => count_with(&self.masks, x),
        }
    }
}
