ghost use Rattle.std.specs.Prelude.{◌≡◌};
ghost use Rattle.definitions.specs.Orders.{variables as all_variables};
ghost use Rattle.unique_table.specs.Plans.{order_of};

use order_model::{Order, Problem};
use std::alloc::Global;
use std::process::Abort;
use unique_table::{Pieces, Session, Store};

/// A store of the file order whose parts are outputs with the top variables fixed.
pub(crate) fn fresh_store(rt: &impl Abort, alloc: Global, problem: &Problem) -> (Store, Session)
    ensures session { result.1.store ≡ result.0 }
    ensures order { order_of result.0.plan ≡ all_variables problem.now.inputs }
    ensures problem { result.0.plan.problem.value ≡ problem.now }
{
    let order = Order::file_order(alloc, problem.inputs()).expect(rt, "memory");
    Store::new(alloc, order, problem, Pieces::Tables).expect(rt, "memory")
}
