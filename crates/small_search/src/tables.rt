//! The tables of the subfunctions over the sets on the way to a set S. On the way are the empty
//! set, the set of S's highest variable, that of its two highest, and so on up to S. Each table is
//! made from that of the set without its lowest variable. By rising mask the sets come depth first,
//! so one table of each size is kept.

ghost use Rattle.std.specs.Prelude.{◌≡◌, ◌+◌, ◌-◌, ◌*◌, ◌/◌, ◌^◌, ◌<◌, ◌≤◌, OnOk, length};
ghost use Rattle.small_search.specs.Joining.{IsJoinedAt};
ghost use Rattle.small_search.specs.ClassSteps.{IsNumbered, IsNumberedFrom, IsReady, IsReadyAt};
ghost use Rattle.small_search.specs.Paths.{HoldPath};
ghost use Rattle.small_search.specs.ValuePlaces.{start_of as place_of, values_at};
ghost use Rattle.subfunction_classes.specs.PairTables.{AllBelow, IsPaired};

use crate::classes::{ClassMemory, number_values};
use crate::instance::SmallSearch;
use crate::values::{join_values, push_points};
use order_model::{Mask, VarIx};
use pair_numbering::{EntryPairs, MaskedNumbers, MaskedPairs, PairMemory};
use std::alloc::{AllocError, Global};

/// Over at most so many variables a subfunction is kept as its value, the truth table in a byte;
/// over more as its class number.
pub(crate) const MOST_VALUE_VARIABLES: u32 = 3;

/// The tables on the way to a set S: for each k from 0 to the size of S, that of the k highest
/// variables of S.
#[derive(Drop)]
pub(crate) struct PathTables {
    /// How many values there are over no variable: one for each function and point.
    pub(crate) entries: usize,
    /// The values over 0, 1, 2 and 3 variables, one size behind the other.
    pub(crate) values: Vec<u8>,
    /// The class tables of sets of four and more variables: at index i that of the set of i + 4
    /// variables.
    pub(crate) classes: Vec<MaskedNumbers>,
    /// Working memory in which class tables are made.
    memory: ClassMemory,
}

/// Where the values over `size` variables begin in a list of those over 0, 1, 2 and 3 variables.
/// Over k variables there are `entries >> k` values.
#[inline(always)]
fn start_of(entries: usize, size: u32) -> usize
    requires size { size ≤ 3 }
    requires few { entries ≤ 2 ^ 20 }
    ensures { result ≡ place_of entries size }
{
    match size {
        0 => 0,
        1 => entries,
        2 => entries + entries / 2,
        _ => entries + entries / 2 + entries / 4,
    }
}

/// The values over `size` variables, a part of `values`, which has those over 0, 1, 2 and 3.
#[inline(always)]
pub(crate) fn values_over(values: &[u8], entries: usize, size: u32) -> &[u8]
    requires size { size ≤ 3 }
    requires few { entries ≤ 2 ^ 20 }
    requires long { length values.now ≡ 2 * entries }
    ensures { result.now ≡ values_at entries values.now size }
{
    let (_, behind) = values.split_at(start_of(entries, size));
    let (own, _) = behind.split_at(entries >> size);
    own
}

/// Writes to `values` the values over a set of `size` variables, whose lowest is x, from those over
/// the set without x. Each joins two of these: the one where x is 0 becomes the lower bits.
#[inline(always)]
fn make_values(values: &mut [u8], entries: usize, x: VarIx, size: u32)
    requires some { 1 ≤ size }
    requires size { size ≤ 3 }
    requires few { entries ≤ 2 ^ 20 }
    requires long { length values.old ≡ 2 * entries }
    requires paired { IsPaired (values_at entries values.old (size - 1)) x }
    requires below { AllBelow (values_at entries values.old (size - 1)) (2 ^ 2 ^ (size - 1)) }
    ensures { IsJoinedAt entries values.old values.new x size }
{
    let (front, back) = values.split_at_mut(start_of(entries, size));
    let (_, before) = front.split_at(start_of(entries, size - 1));
    let (own, _) = back.split_at_mut(entries >> size);
    join_values(before, x, 1 << (size - 1), own);
}

/// Overwrites `to` with the class table of the set of `from` with x added.
#[inline(always)]
fn add_below(
    from: &MaskedNumbers,
    x: VarIx,
    memory: &mut PairMemory,
    to: &mut MaskedNumbers,
) -> Result<(), AllocError>
    requires { IsReady from.now x }
    ensures { OnOk result (IsNumbered from.now to.new x) }
{
    let pairs = MaskedPairs {
        entries: EntryPairs::of_table(&from.numbers, u32::from(x)),
        masks: &from.masks,
        x,
    };
    memory.write_numbers(&pairs, to)?;
    Ok(())
}

/// Overwrites `classes[size - 4]` with the class table of a set of `size` variables, made from
/// `classes[size - 5]`, that of the set without its lowest variable x.
#[inline(always)]
fn make_classes(
    classes: &mut [MaskedNumbers],
    size: u32,
    x: VarIx,
    memory: &mut PairMemory,
) -> Result<(), AllocError>
    requires more { 4 < size }
    requires few { size ≤ 16 }
    requires room { size ≤ 3 + length classes.old }
    requires ready { IsReadyAt classes.old (size - 5) x }
    ensures { OnOk result (IsNumberedFrom classes.old classes.new (size - 5) x) }
{
    let (smaller, others) = classes.split_at_mut(size as usize - 4);
    let smaller = &*smaller;
    add_below(&smaller[size as usize - 5], x, memory, &mut others[0])
}

/// Appends empty class tables to `classes`, each with room for `room` pairs, until it has one for
/// each size of a set from 4 to `inputs`.
fn add_tables(
    alloc: Global,
    room: usize,
    classes: &mut Vec<MaskedNumbers>,
    inputs: usize,
) -> Result<(), AllocError>
    ensures { OnOk result (inputs ≤ 3 + length classes.new.items) }
{
    let missing = inputs.saturating_sub(3).saturating_sub(classes.len());
    for _size in 0..missing {
        classes.push(MaskedNumbers::with_room(alloc, room)?)?;
    }
    Ok(())
}

impl PathTables {
    /// Path tables of no search: `restart` makes them those of one.
    pub(crate) fn new(alloc: Global) -> PathTables {
        PathTables {
            entries: 0,
            values: Vec::new(alloc),
            classes: Vec::new(alloc),
            memory: ClassMemory {
                pairs: PairMemory::new(alloc),
                values: Vec::new(alloc),
            },
        }
    }

    /// Makes these the tables for the empty set and the functions of `search`.
    pub(crate) fn restart(
        &mut self,
        alloc: Global,
        search: &SmallSearch<'_>,
    ) -> Result<(), AllocError>
        ensures { OnOk result (HoldPath search.now.problem 0 self.new) }
    {
        prove!(search.inputs() <= 16);
        prove!(search.outputs() <= 16);
        self.entries = (search.outputs() as usize) << search.inputs();
        self.values.clear();
        self.values.reserve(2 * self.entries)?;
        push_points(&mut self.values, search)?;
        self.values.resize(2 * self.entries, 0)?;
        add_tables(
            alloc,
            self.entries / 16,
            &mut self.classes,
            search.inputs() as usize,
        )?;
        Ok(())
    }

    /// Turns the tables for the set with the mask `set - 1` into those for `set`. Makes one table,
    /// from that of `set` without its lowest variable.
    #[inline(always)]
    pub(crate) fn add_lowest(
        &mut self,
        search: &SmallSearch<'_>,
        set: Mask,
    ) -> Result<(), AllocError>
        requires some { 0 < set }
        requires within { set < 2 ^ search.now.problem.inputs }
        requires path { HoldPath search.now.problem (set - 1) self.old }
        ensures { OnOk result (HoldPath search.now.problem set self.new) }
    {
        prove!(search.inputs() <= 16);
        prove!(search.outputs() <= 16);
        let x = set.trailing_zeros() as VarIx;
        let size = set.count_ones();
        if size <= MOST_VALUE_VARIABLES {
            make_values(&mut self.values, self.entries, x, size);
        } else if size == MOST_VALUE_VARIABLES + 1 {
            let values = values_over(&self.values, self.entries, MOST_VALUE_VARIABLES);
            number_values(values, x, set, &mut self.memory, &mut self.classes[0])?;
        } else {
            make_classes(&mut self.classes, size, x, &mut self.memory.pairs)?;
        }
        Ok(())
    }
}
