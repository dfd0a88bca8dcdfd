//! How many orders of the variables of each set of a layer have each cost.

ghost use Rattle.std.specs.Prelude.{◌≡◌, ℕ, ◌+◌, ◌^◌, ◌<◌, ◌≤◌, List, [], IfOk};
ghost use Rattle.definitions.specs.Functions.{Function};
ghost use Rattle.definitions.specs.Pairs.{Pair};
ghost use Rattle.order_counts.specs.Sizes.{AreCountsBetween, AreCountsInLayer, AreCountsOf, AreLimited, AreOfLayer, first_of_part};

use crate::cost_counts::CostCounts;
use crate::set_counts::{Recurrence, counts_of_set};
use order_model::{Mask, Workers};
use std::alloc::{AllocError, Global};
use std::thread;
use std::thread::Threads;

/// The counts of `set` if it has `size` members, and no orders otherwise. Entry m of `smaller` has
/// the counts of the set with the mask m, if that has one member less.
fn counts_in_layer(
    alloc: Global,
    given: Recurrence,
    smaller: &[CostCounts],
    size: u32,
    set: Mask,
) -> Result<CostCounts, AllocError>
    requires given { AreLimited given }
    requires size { 0 < size }
    requires within { set < 2 ^ given.pairs.now.inputs }
    requires smaller { (k : ℕ) → k + 1 ≡ size → AreCountsInLayer given k smaller.now }
    ensures { IfOk result (AreOfLayer given.entry size set) }
{
    if set.count_ones() == size {
        return counts_of_set(alloc, given, smaller, set);
    }
    Ok(CostCounts::none(alloc))
}

/// The counts of the sets with `size` members whose masks lie from `first` to before `end`, one
/// entry a mask, and no orders at other masks. Entry m of `smaller` has the counts of the set with
/// the mask m, if that has one member less.
fn counts_of_range(
    alloc: Global,
    given: Recurrence,
    smaller: &[CostCounts],
    size: u32,
    first: usize,
    end: usize,
) -> Result<Vec<CostCounts>, AllocError>
    requires given { AreLimited given }
    requires size { 0 < size }
    requires ordered { first ≤ end }
    requires within { end ≤ 2 ^ given.pairs.now.inputs }
    requires smaller { (k : ℕ) → k + 1 ≡ size → AreCountsInLayer given k smaller.now }
    ensures { IfOk result (λ counts. AreCountsBetween given.entry size first end counts.items) }
{
    let mut counts = Vec::with_capacity(alloc, end - first)?;
    for set in first..end {
        counts.push(counts_in_layer(alloc, given, smaller, size, set as Mask)?)?;
    }
    Ok(counts)
}

/// The fewest sets that are worth threads.
const SETS_WORTH_THREADS: usize = 1 << 11;

/// How many parts `workers` workers make of so many sets.
fn parts_of(workers: Workers, sets: usize) -> usize
    ensures some { 0 < result }
    ensures most { result ≤ 64 }
{
    if sets < SETS_WORTH_THREADS {
        1
    } else {
        usize::from(workers.count())
    }
}

/// The counts of the sets with `size` members, at their masks, and no orders at other masks, found
/// by the threads of `workers` workers. Entry m of `smaller` has the counts of the set with the
/// mask m, if that has one member less.
fn counts_by_workers<R: Threads + Sync>(
    rt: &R,
    alloc: Global,
    workers: Workers,
    given: Recurrence,
    smaller: &[CostCounts],
    size: u32,
) -> Result<Vec<CostCounts>, AllocError>
    requires given { AreLimited given }
    requires size { 0 < size }
    requires smaller { (k : ℕ) → k + 1 ≡ size → AreCountsInLayer given k smaller.now }
    ensures { IfOk result (λ counts. AreCountsInLayer given.entry size counts.items) }
{
    let sets = 1usize << given.pairs.inputs();
    let parts = parts_of(workers, sets);
    let step = sets.div_ceil(parts);
    let found = thread::map_indices(
        rt,
        alloc,
        parts,
        &|part: usize| -> Result<Vec<CostCounts>, AllocError>
            requires { (part < 64) × (step ≤ sets) × (sets ≡ 2 ^ given.pairs.now.inputs)
                × AreLimited given × (0 < size)
                × ((k : ℕ) → k + 1 ≡ size → AreCountsInLayer given k smaller.now) }
            ensures { IfOk result (λ counts. AreCountsBetween given.entry size
                (first_of_part step sets part) (first_of_part step sets (part + 1)) counts.items) }
        {
            let first = (part * step).min(sets);
            let end = ((part + 1) * step).min(sets);
            counts_of_range(alloc, given, smaller, size, first, end)
        },
    )?;
    let mut counts = Vec::with_capacity(alloc, sets)?;
    for part in found {
        let mut part = part?;
        counts.append(&mut part)?;
    }
    Ok(counts)
}

/// Who counts the orders of the sets of a layer: several workers, or the calling thread.
pub trait Counter {
    // What counting requires.
    ghost ready: { Self → Type 0 };

    /// The counts of the sets with `size` members, at their masks, and no orders at other masks.
    /// Entry m of `smaller` has the counts of the set with the mask m, if that has one member less.
    fn counts_of_layer(
        &self,
        alloc: Global,
        given: Recurrence,
        smaller: &[CostCounts],
        size: u32,
    ) -> Result<Vec<CostCounts>, AllocError>
        requires ready { ready self.now }
        requires given { AreLimited given }
        requires size { 0 < size }
        requires smaller { (k : ℕ) → k + 1 ≡ size → AreCountsInLayer given k smaller.now }
        ensures { IfOk result (λ counts. AreCountsInLayer given.entry size counts.items) };
}

/// Workers count, each a range of masks.
#[derive(Drop)]
pub struct ByWorkers<'r, R> {
    /// The runtime, which starts the threads.
    pub rt: &'r R,
    /// How many workers share the masks.
    pub workers: Workers,
}

/// The calling thread counts alone.
#[derive(Drop)]
pub struct CallingThread;

impl Counter for CallingThread {
    ghost ready = { λ _. Unit {0} };

    /// The counts of the sets with `size` members, found by the calling thread.
    fn counts_of_layer(
        &self,
        alloc: Global,
        given: Recurrence,
        smaller: &[CostCounts],
        size: u32,
    ) -> Result<Vec<CostCounts>, AllocError> {
        let sets = 1usize << given.pairs.inputs();
        counts_of_range(alloc, given, smaller, size, 0, sets)
    }
}

impl<'r, R: Threads + Sync> Counter for ByWorkers<'r, R> {
    ghost use Rattle.std.specs.Thread.{IsSync};

    ghost ready = { λ _. IsSync R.row };

    /// The counts of the sets with `size` members, found by the threads of the workers.
    fn counts_of_layer(
        &self,
        alloc: Global,
        given: Recurrence,
        smaller: &[CostCounts],
        size: u32,
    ) -> Result<Vec<CostCounts>, AllocError> {
        counts_by_workers(self.rt, alloc, self.workers, given, smaller, size)
    }
}

/// The counts of the empty set: one order, without nodes. It counts if `limit` is above 0.
fn counts_of_empty(alloc: Global, limit: u32) -> Result<CostCounts, AllocError>
    ensures { IfOk result (λ s. (n : ℕ) (F : List Function) (P : List Pair) → AreCountsOf n F P [] limit s) }
{
    if limit == 0 {
        return Ok(CostCounts::none(alloc));
    }
    let mut orders = Vec::with_capacity(alloc, 1)?;
    orders.push(1)?;
    Ok(CostCounts { least: 0, orders })
}

/// The counts of the empty set, at its mask, and no orders at other masks.
pub(crate) fn counts_of_nothing(
    alloc: Global,
    given: Recurrence,
) -> Result<Vec<CostCounts>, AllocError>
    requires given { AreLimited given }
    ensures { IfOk result (λ counts. AreCountsInLayer given.entry 0 counts.items) }
{
    let sets = 1usize << given.pairs.inputs();
    let mut counts = Vec::with_capacity(alloc, sets)?;
    counts.push(counts_of_empty(alloc, given.limits[0])?)?;
    for _set in 1..sets {
        counts.push(CostCounts::none(alloc))?;
    }
    Ok(counts)
}
