//! The orders of the fewest nodes of many problems by one call.

ghost use Rattle.std.specs.Prelude.{◌≡◌, ◌≢◌, ◌*◌, ◌↔◌, ◌++◌, ◌∷◌, [], length, IsTrue, IfOk, OnOk};
ghost use Rattle.minorder_c.specs.Answers.{AreTables, ListsStay, given};
ghost use Rattle.minorder_c.specs.Many.{AreFirstFewest, HasManyShape, IsPut};
ghost use Rattle.minorder_c.specs.Statuses.{IsPlainStatus, ShowsShape};

use crate::arguments::{GivenTables, is_in_range};
use crate::exact::optimum;
use crate::status::Refusal;
use order_model::Pairs;
use order_model::packed::{block, words_per_table};
use small_search::Workspace;
use std::alloc::{AllocError, Global};

/// The answers for many problems, one problem after the other.
#[derive(Drop)]
pub(crate) struct Answers {
    /// Top first.
    pub(crate) orders: Vec<u8>,
    /// Top first.
    pub(crate) levels: Vec<u32>,
    pub(crate) totals: Vec<u32>,
}

impl Answers {
    /// The answers for no problem.
    pub(crate) fn new(alloc: Global) -> Answers
        ensures orders { result.orders.items ≡ [] }
        ensures levels { result.levels.items ≡ [] }
        ensures totals { result.totals.items ≡ [] }
    {
        Answers {
            orders: Vec::new(alloc),
            levels: Vec::new(alloc),
            totals: Vec::new(alloc),
        }
    }

    /// Appends the answer for one problem. If memory is refused, only a part may be appended.
    pub(crate) fn push(
        &mut self,
        order: &[u8],
        levels: &[u32],
        total: u32,
    ) -> Result<(), AllocError>
        ensures orders { OnOk result
            (self.new.orders.items ≡ self.old.orders.items ++ order.now) }
        ensures levels { OnOk result
            (self.new.levels.items ≡ self.old.levels.items ++ levels.now) }
        ensures totals { OnOk result
            (self.new.totals.items ≡ self.old.totals.items ++ total ∷ []) }
    {
        self.orders.extend_from_slice(order)?;
        self.levels.extend_from_slice(levels)?;
        self.totals.push(total)?;
        Ok(())
    }

    /// Copies the answers to a caller's arrays.
    pub(crate) fn write(&self, orders: &mut [u8], levels: &mut [u32], totals: &mut [u32])
        requires orders { length orders.old ≡ length self.now.orders.items }
        requires levels { length levels.old ≡ length self.now.levels.items }
        requires totals { length totals.old ≡ length self.now.totals.items }
        ensures orders { orders.new ≡ self.now.orders.items }
        ensures levels { levels.new ≡ self.now.levels.items }
        ensures totals { totals.new ≡ self.now.totals.items }
    {
        orders.copy_from_slice(&self.orders);
        levels.copy_from_slice(&self.levels);
        totals.copy_from_slice(&self.totals);
    }
}

pub(crate) fn is_length(length: usize, many: usize, size: usize) -> bool
    ensures { IsTrue result ↔ (length ≡ many * size) }
{
    match many.checked_mul(size) {
        Some(wanted) => length == wanted,
        None => false,
    }
}

/// Whether the words, and slices of `places` and `counts` entries, fit `many` problems.
pub(crate) fn is_shape(given: &GivenTables, places: usize, counts: usize, many: usize) -> bool
    ensures { IsTrue result ↔ HasManyShape given.now places counts many }
{
    if !is_in_range(given) {
        return false;
    }
    let size = given.outputs as usize * words_per_table(given.inputs as u8);
    is_length(given.words.len(), many, size)
        && is_length(places, many, given.inputs as usize)
        && is_length(counts, many, given.inputs as usize)
}

/// Appends the answer for one problem. If memory is refused, only a part may be appended.
fn put(
    alloc: Global,
    given: &GivenTables,
    workspace: &mut Workspace,
    answers: &mut Answers,
) -> Result<(), AllocError>
    requires { AreTables given.now }
    ensures { OnOk result
        (IsPut given.now answers.old.orders.items answers.new.orders.items
        answers.old.levels.items answers.new.levels.items answers.old.totals.items
        answers.new.totals.items) }
{
    let n = given.inputs as usize;
    let mut places = [0; 16];
    let mut counts = [0; 16];
    let (order, _) = places.split_at_mut(n);
    let (levels, _) = counts.split_at_mut(n);
    let pairs = Pairs::none(given.inputs as u8);
    let total = optimum(alloc, given, pairs, workspace, order, levels)?;
    answers.push(order, levels, total)
}

/// The answers for `many` problems, whose truth tables `given` has one problem after the other.
fn optima_of(alloc: Global, given: &GivenTables, many: usize) -> Result<Answers, AllocError>
    requires { HasManyShape given.now (many * given.now.inputs) (many * given.now.inputs) many }
    ensures optima { IfOk result
        (λ a. AreFirstFewest given.now many a.orders.items a.levels.items a.totals.items) }
    ensures orders { IfOk result (λ a. length a.orders.items ≡ many * given.now.inputs) }
    ensures levels { IfOk result (λ a. length a.levels.items ≡ many * given.now.inputs) }
    ensures totals { IfOk result (λ a. length a.totals.items ≡ many) }
{
    let size = given.outputs as usize * words_per_table(given.inputs as u8);
    let mut answers = Answers::new(alloc);
    let mut workspace = Workspace::new(alloc);
    for i in 0..many {
        let words = block(given.words, size, i);
        put(
            alloc,
            &GivenTables { words, ..*given },
            &mut workspace,
            &mut answers,
        )?;
    }
    Ok(answers)
}

/// Writes the first order of the fewest nodes of each problem, its level counts and its size. The
/// truth tables and the answers stand one problem after the other.
#[unsafe(no_mangle)]
pub extern "C" fn minorder_exact_many_with_lengths(
    alloc: Global,
    tables: &[u64],
    inputs: u32,
    outputs: u32,
    orders: &mut [u8],
    levels: &mut [u32],
    totals: &mut [u32],
) -> u32
    ensures status { IsPlainStatus result }
    ensures shape { ShowsShape (HasManyShape (given tables.entry inputs outputs)
        (length orders.old) (length levels.old) (length totals.old)) result }
    ensures optima { result ≡ 0 →
        AreFirstFewest (given tables.entry inputs outputs) (length totals.old) orders.new levels.new
        totals.new }
    ensures refused { result ≢ 0 →
        ListsStay orders.old orders.new levels.old levels.new totals.old totals.new }
{
    let given = GivenTables::of(tables, inputs, outputs);
    let many = totals.len();
    if !is_shape(&given, orders.len(), levels.len(), many) {
        return Refusal::Shape.status();
    }
    match optima_of(alloc, &given, many) {
        Ok(found) => {
            found.write(orders, levels, totals);
            0
        }
        Err(_) => Refusal::OutOfMemory.status(),
    }
}
