//! Laws of stores and orders, each the contract of a function that does nothing.

ghost use Rattle.std.specs.Prelude.{length};
ghost use Rattle.definitions.specs.Orders.{IsOrder};
ghost use Rattle.unique_table.specs.Plans.{IsPlan};
ghost use Rattle.dd_builder.specs.Subfunctions.{SizesAreFew, SubfunctionsAreFew, MostNodesFit};

use order_model::Order;
use unique_table::Store;

/// Law: a store's plan is consistent. It has 262,144 places for nodes, 65,536 for results of
/// operations, and 1 to 16 outputs.
pub(crate) fn stores_have_plans(store: &Store)
    ensures { IsPlan store.now.plan }
{
    let _order = store.order();
}

/// Law: an order has each variable below its length exactly once.
pub(crate) fn orders_have_each_variable_once(order: &Order)
    ensures { IsOrder (length order.now) order.now }
{
    let _variables = order.variables();
}

/// Law: distinct nodes, each of which denotes an output with the variables above its level fixed,
/// are no more than the nodes of the outputs' reduced diagram: at most 131,310, half the places of
/// a store.
pub fn subfunctions_are_few()
    ensures few { SubfunctionsAreFew }
    ensures sizes { SizesAreFew }
    ensures fit { MostNodesFit }
{}
