//! Class tables in strips: entries that differ in the low variables alone stand together in a
//! strip, and equal strips are stored once.

ghost use Rattle.std.specs.Prelude.{◌≡◌, ℕ, ◌^◌, ◌<◌, ◌≤◌, length, slice_index, if◌then◌else◌, ◌==◌, IfOk, IsFalse, IsTrue};
ghost use Rattle.std.specs.Int.{bit_at};
ghost use Rattle.std.specs.List.{filter};
ghost use Rattle.definitions.specs.Orders.{has};
ghost use Rattle.subfunction_classes.specs.PairTables.{AllBelow};
ghost use Rattle.compaction.specs.Strips.{masks_in_use, low_variables as low_of};

use crate::add_variable::{StripTable, add_above};
use crate::values::{ValueStrips, value_strips};
use order_model::{Mask, Problem, VarIx, WidthRow, contains};
use pair_numbering::{EntryPairs, MaskedPairs, PairKeys, PairMemory, are_in_order, label_pairs};
use std::alloc::{AllocError, Global};
use std::marker::Model;
use subfunction_classes::{count_with, rank_of};

/// The class table of a set in strips. A strip has a class number for each assignment of the low
/// variables outside the set. If all subfunctions are distinct, numbered in order, and depend on
/// the whole set, only their count is kept.
#[derive(Drop)]
pub(crate) struct Strips<'a> {
    problem: &'a Problem,
    set: Mask,
    /// How many subfunctions there are, if only their count is kept: then `outer` and `keys` are
    /// empty. Else None.
    distinct: Option<u32>,
    /// Function by function, for each assignment of the high variables outside the set, the name of
    /// its strip: the strip's number among those in `numbers`.
    outer: Vec<u32>,
    /// The class numbers in the strips, one strip after the other, and for each class number the
    /// mask of the variables that its subfunctions depend on.
    keys: PairKeys,
}

impl<'a> Model for Strips<'a> {
    ghost use Rattle.subfunction_classes.specs.Table.{ClassesOf, classes_of};
    ghost use Rattle.compaction.specs.Strips.{HoldsStripTable, low_variables};

    ghost Value = { ClassesOf };

    ghost view = { λ c. classes_of c.problem.now c.set };

    ghost invariant = { λ c. HoldsStripTable
        (classes_of c.problem.now c.set) (low_variables c.problem.now) c.distinct c.outer.items
        c.keys.numbers.items c.keys.masks.items };
}

/// How many variables of a problem are low: eight, or all if there are fewer.
pub(crate) fn low_variables(problem: &Problem) -> u8
    ensures { result ≡ low_of problem.now }
{
    problem.inputs().min(8)
}

/// The row that has, at each variable x in `wanted`, how many of `masks` have x, and 0 elsewhere.
fn row_of(masks: &[Mask], wanted: Mask) -> WidthRow
    requires few { length masks.now ≤ 2 ^ 20 }
    ensures { (x : ℕ) → x < 16 →
        slice_index result x ≡ (if bit_at wanted x == 1
        then length (filter (λ m. bit_at m x == 1) masks.now) else 0) }
{
    let mut row = [0; 16];
    for x in 0..16 {
        if contains(wanted, x) {
            row[x as usize] = count_with(masks, x);
        }
    }
    row
}

/// The masks of the class numbers that occur in `numbers`, by rising number. `masks[k]` is the mask
/// of class number k; there must be one for each number.
fn used_masks(alloc: Global, numbers: &[u32], masks: &[Mask]) -> Result<Vec<Mask>, AllocError>
    requires below { AllBelow numbers.now (length masks.now) }
    ensures { IfOk result (λ v. v.items ≡ masks_in_use numbers.now masks.now) }
{
    let mut used = vec![in alloc; false; masks.len()]?;
    for number in numbers {
        used[*number as usize] = true;
    }
    let mut found = Vec::new(alloc);
    for (k, occurs) in used.iter().enumerate() {
        if *occurs {
            found.push(masks[k])?;
        }
    }
    Ok(found)
}

/// The entries of `row` at the variables in `members`, and 0 elsewhere.
pub(crate) fn members_only(row: WidthRow, members: Mask) -> WidthRow
    ensures { (x : ℕ) → x < 16 →
        slice_index result x ≡ (if bit_at members x == 1 then slice_index row x else 0) }
{
    let mut found = [0; 16];
    for x in 0..16u8 {
        if contains(members, x) {
            found[x as usize] = row[x as usize];
        }
    }
    found
}

impl<'a> Strips<'a> {
    ghost use Rattle.compaction.specs.Rows.{IsWidthRow};
    ghost use Rattle.compaction.specs.Strips.{AreDistinct, HoldsStrips, low_variables};
    ghost use Rattle.subfunction_classes.specs.Table.{set_of, with_variable, classes_of};

    /// The class table of `set` with the strip names `outer`, and the class numbers and masks in
    /// `keys`. If all subfunctions are distinct, numbered in order, and depend on the whole set,
    /// only their count is kept.
    fn of_parts(
        alloc: Global,
        problem: &'a Problem,
        set: Mask,
        outer: Vec<u32>,
        keys: PairKeys,
    ) -> Strips<'a>
        requires { HoldsStrips (classes_of problem.now set) (low_variables problem.now)
            outer.items keys.numbers.items keys.masks.items }
        ensures { result ≡ classes_of problem.now set }
    {
        let count = keys.numbers.len();
        if keys.masks.len() == count
            && are_in_order(&outer)
            && are_in_order(&keys.numbers)
            && keys.masks.iter().all(|mask| *mask == set)
        {
            return Strips::of_count(alloc, problem, set, count as u32);
        }
        Strips {
            problem,
            set,
            distinct: None,
            outer,
            keys,
        }
    }

    /// The class table of `set`, of which only `count` is kept.
    fn of_count(alloc: Global, problem: &'a Problem, set: Mask, count: u32) -> Strips<'a>
        requires { AreDistinct (classes_of problem.now set) count }
        ensures { result ≡ classes_of problem.now set }
    {
        Strips {
            problem,
            set,
            distinct: Some(count),
            outer: Vec::new(alloc),
            keys: PairKeys {
                numbers: Vec::new(alloc),
                masks: Vec::new(alloc),
                all_used: false,
            },
        }
    }

    /// The class table of the empty set. Number 0 is the value of the first function at point 0.
    pub(crate) fn of_problem(alloc: Global, problem: &'a Problem) -> Result<Strips<'a>, AllocError>
        ensures { IfOk result (λ c. c ≡ classes_of problem.now 0) }
    {
        prove!(problem.inputs() <= 16);
        prove!(problem.outputs() <= 16);
        let masks = vec![in alloc; 0; 2]?;
        let ValueStrips { outer, numbers } = value_strips(alloc, problem)?;
        let keys = PairKeys {
            numbers,
            masks,
            all_used: false,
        };
        Ok(Strips::of_parts(alloc, problem, 0, outer, keys))
    }

    /// How many class numbers are stored in the strips; 0 if only a count of subfunctions is kept.
    pub(crate) fn stored(&self) -> usize {
        self.keys.numbers.len()
    }

    /// The set that the table is of, as a mask.
    pub(crate) fn set(&self) -> Mask
        ensures { result ≡ self.now.set }
    {
        self.set
    }

    /// The class table of this table's set with the low variable `x` added. `memory` is working
    /// memory.
    pub(crate) fn add_low(
        &self,
        memory: &mut PairMemory,
        x: VarIx,
    ) -> Result<Strips<'a>, AllocError>
        requires low { x < low_variables self.now.problem }
        requires new { IsFalse (has (set_of self.now) x) }
        ensures { IfOk result (λ c. c ≡ with_variable self.now x) }
    {
        let set = self.set | (1 << x);
        match self.distinct {
            Some(count) => Ok(Strips::of_count(memory.alloc, self.problem, set, count / 2)),
            None => {
                let rank = rank_of(self.set, x);
                let pairs = MaskedPairs {
                    entries: EntryPairs::of_table(&self.keys.numbers, rank),
                    masks: &self.keys.masks,
                    x,
                };
                let keys = label_pairs(memory, &pairs)?;
                let outer = self.outer.to_vec(memory.alloc)?;
                Ok(Strips::of_parts(memory.alloc, self.problem, set, outer, keys))
            }
        }
    }

    /// The class table of this table's set with the high variable `x` added. `memory` is working
    /// memory.
    pub(crate) fn add_high(
        &self,
        memory: &mut PairMemory,
        x: VarIx,
    ) -> Result<Strips<'a>, AllocError>
        requires high { low_variables self.now.problem ≤ x }
        requires inside { x < self.now.problem.inputs }
        requires new { IsFalse (has (set_of self.now) x) }
        ensures { IfOk result (λ c. c ≡ with_variable self.now x) }
    {
        prove!(self.problem.inputs() <= 16);
        let set = self.set | (1 << x);
        match self.distinct {
            Some(count) => Ok(Strips::of_count(memory.alloc, self.problem, set, count / 2)),
            None => {
                let bits = rank_of(self.set, low_variables(self.problem));
                let rank = rank_of(self.set, x) - bits;
                let table = StripTable {
                    outer: &self.outer,
                    rank,
                    numbers: &self.keys.numbers,
                    bits,
                    masks: &self.keys.masks,
                };
                let (outer, keys) = add_above(memory, &table, x)?;
                Ok(Strips::of_parts(memory.alloc, self.problem, set, outer, keys))
            }
        }
    }

    /// The row that has, at each x in `wanted`, the width of x over the set without x, and 0
    /// elsewhere.
    pub(crate) fn width_row(&self, alloc: Global, wanted: Mask) -> Result<WidthRow, AllocError>
        requires { (x : ℕ) → bit_at wanted x ≡ 1 → IsTrue (has (set_of self.now) x) }
        ensures { IfOk result (λ row. IsWidthRow self.now.problem self.now.set wanted row) }
    {
        match self.distinct {
            Some(count) => Ok(members_only([count; 16], wanted)),
            None => {
                if self.keys.all_used {
                    return Ok(row_of(&self.keys.masks, wanted));
                }
                let used = used_masks(alloc, &self.keys.numbers, &self.keys.masks)?;
                Ok(row_of(&used, wanted))
            }
        }
    }
}
