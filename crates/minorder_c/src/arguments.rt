ghost use Rattle.std.specs.Prelude.{◌≡◌, ◌≤◌, ◌↔◌, length, IsTrue, IfOk, IfErr, OnOk};
ghost use Rattle.definitions.specs.Orders.{IsOrder};
ghost use Rattle.minorder_c.specs.Answers.{AreTables, HasCallShape, IsInRange, given, tables_in};
ghost use Rattle.minorder_c.specs.Statuses.{RefusesShape, RefusesOrder};

use crate::status::Refusal;
use order_model::packed::words_per_table;
use order_model::{BadOrder, Order};
use std::alloc::Global;
use truth_table::Tables;

/// What a call is given as truth tables. The numbers may be out of range, and the words too few or
/// too many.
#[derive(Clone, Copy, Debug)]
pub(crate) struct GivenTables<'a> {
    pub words: &'a [u64],
    pub inputs: u32,
    pub outputs: u32,
}

impl<'a> GivenTables<'a> {
    pub(crate) fn of(words: &'a [u64], inputs: u32, outputs: u32) -> GivenTables<'a>
        ensures { result ≡ given words.entry inputs outputs }
    {
        GivenTables {
            words,
            inputs,
            outputs,
        }
    }
}

pub(crate) fn is_in_range(given: &GivenTables) -> bool
    ensures { IsTrue result ↔ IsInRange given.now }
{
    (1..=16).contains(&given.inputs) && (1..=16).contains(&given.outputs)
}

/// Whether `given` has exactly the words of its truth tables.
pub(crate) fn are_tables(given: &GivenTables) -> bool
    ensures { IsTrue result ↔ AreTables given.now }
{
    is_in_range(given)
        && given.words.len() == given.outputs as usize * words_per_table(given.inputs as u8)
}

/// Whether `places`, the length of a slice for an order, and `counts`, that of one for level
/// counts, fit the truth tables.
pub(crate) fn has_call_shape(given: &GivenTables, places: usize, counts: usize) -> bool
    ensures { IsTrue result ↔ HasCallShape given.now places counts }
{
    places == given.inputs as usize && counts == given.inputs as usize && are_tables(given)
}

/// The truth tables `given`.
pub(crate) fn tables_of(alloc: Global, given: &GivenTables) -> Result<Tables, Refusal>
    ensures there { OnOk result (AreTables given.now) }
    ensures tables { IfOk result (λ t. t ≡ tables_in given.now) }
    ensures refused { IfErr result (RefusesShape (AreTables given.now)) }
{
    if !are_tables(given) {
        return Err(Refusal::Shape);
    }
    match Tables::of_words(alloc, given.inputs as u8, given.outputs as u8, given.words) {
        Ok(tables) => Ok(tables),
        Err(_) => Err(Refusal::OutOfMemory),
    }
}

/// The truth tables `given`, if slices of `places` and `counts` entries fit.
pub(crate) fn tables_for(
    alloc: Global,
    given: &GivenTables,
    places: usize,
    counts: usize,
) -> Result<Tables, Refusal>
    ensures shape { OnOk result (HasCallShape given.now places counts) }
    ensures tables { IfOk result (λ t. t ≡ tables_in given.now) }
    ensures refused { IfErr result (RefusesShape (HasCallShape given.now places counts)) }
{
    if places != given.inputs as usize || counts != given.inputs as usize {
        return Err(Refusal::Shape);
    }
    tables_of(alloc, given)
}

/// The order `variables`, top first.
pub(crate) fn order_of(alloc: Global, variables: &[u8]) -> Result<Order, Refusal>
    requires some { 1 ≤ length variables.now }
    requires few { length variables.now ≤ 16 }
    ensures order { OnOk result (IsOrder (length variables.now) variables.now) }
    ensures value { IfOk result (λ o. o ≡ variables.now) }
    ensures refused { IfErr result
        (RefusesOrder (Unit {0}) (IsOrder (length variables.now) variables.now)) }
{
    match Order::try_from_slice(alloc, variables) {
        Ok(order) => Ok(order),
        Err(BadOrder::OutOfMemory) => Err(Refusal::OutOfMemory),
        Err(BadOrder::NotEach) => Err(Refusal::Order),
        Err(BadOrder::OutOfRange) => Err(Refusal::Order),
    }
}

/// The truth tables that a call is given, and an order of their variables.
#[derive(Drop)]
pub(crate) struct Arguments {
    pub(crate) tables: Tables,
    pub(crate) order: Order,
}

/// The truth tables `given` and the order `variables`, if a slice of `counts` entries fits.
pub(crate) fn arguments_of(
    alloc: Global,
    given: &GivenTables,
    variables: &[u8],
    counts: usize,
) -> Result<Arguments, Refusal>
    ensures shape { OnOk result (HasCallShape given.now (length variables.now) counts) }
    ensures is_order { OnOk result (IsOrder given.now.inputs variables.now) }
    ensures tables { IfOk result (λ g. g.tables ≡ tables_in given.now) }
    ensures order { IfOk result (λ g. g.order ≡ variables.now) }
    ensures refused { IfErr result
        (RefusesOrder (HasCallShape given.now (length variables.now) counts)
        (IsOrder given.now.inputs variables.now)) }
{
    let tables = tables_for(alloc, given, variables.len(), counts)?;
    let order = order_of(alloc, variables)?;
    Ok(Arguments { tables, order })
}
