ghost use Rattle.std.specs.Prelude.{◌≡◌, ◌^◌, ◌<◌, ◌≤◌, length, take, IfOk, OnErr};
ghost use Rattle.definitions.specs.Orders.{IsOrder};
ghost use Rattle.definitions.specs.Problems.{outputs_of};
ghost use Rattle.unique_table.specs.Plans.{order_of, levels_of, output_at, fixed, piece_function, top_variables};
ghost use Rattle.unique_table.specs.Sessions.{Means, Follows, depth_in};
ghost use Rattle.dd_builder.specs.Building.{IsForTables};
ghost use Rattle.dd_builder.specs.Making.{Makes};
ghost use Rattle.dd_builder.specs.Subfunctions.{KeepsSubfunctions};
ghost use Rattle.dd_builder.specs.Paths.{IsPointOf, IsPathOf, output_along};

use order_model::VarIx;
use truth_table::Tables;
use unique_table::{NodeId, Session, Store, StoreFull};

/// The point at which the variable of each level i has the value of bit i of `path`.
fn point_of(order: &[VarIx], path: u32) -> u32
    requires order { IsOrder (length order.now) order.now }
    requires few { length order.now ≤ 16 }
    ensures { IsPointOf order.now path result }
{
    let mut point = 0;
    for (level, x) in order.iter().enumerate() {
        point |= ((path >> level) & 1) << *x;
    }
    point
}

/// Values for the variables above a level.
#[derive(Clone, Copy, Debug)]
struct Path {
    level: u8,
    /// Bit i is the value of the variable of level i. Bits from `level` on are 0.
    bits: u32,
    /// The point with these values, and 0 for the variables below.
    point: u32,
}

/// Makes the nodes of output `output` with the variables fixed as `path` says, and returns the id.
fn output_below(
    store: &Store,
    session: &mut Session,
    tables: &Tables,
    output: u8,
    path: Path,
) -> Result<NodeId, StoreFull>
    requires session { session.old.store ≡ store.now }
    requires tables { tables.now ≡ store.now.plan.problem.value }
    requires output { output < outputs_of tables.now }
    requires path { IsPathOf store.now.plan path }
    ensures made { Makes session.old session.new result
        (output_along store.now.plan path.level path.bits output) }
    ensures kept { KeepsSubfunctions session.old session.new }
    ensures level { IfOk result (λ id. path.level ≤ depth_in session.new id) }
{
    let order = store.order().variables();
    let Path { level, bits, point } = path;
    if usize::from(level) == order.len() {
        return Ok(u32::from(tables.value(output, point)));
    }
    let below = level + 1;
    let without = Path {
        level: below,
        bits,
        point,
    };
    let low = output_below(store, session, tables, output, without)?;
    let with = Path {
        level: below,
        bits: bits + (1 << level),
        point: point | 1 << order[usize::from(level)],
    };
    let high = output_below(store, session, tables, output, with)?;
    store.make(session, level, low, high)
}

/// How many variables on top of `order` are fixed in parts that are made from truth tables.
pub(crate) fn top_variables(order: &[VarIx]) -> u8
    requires { 1 ≤ length order.now }
    ensures value { result ≡ length (top_variables order.now) }
    ensures few { result ≤ 2 }
{
    if order.len() == 1 { 1 } else { 2 }
}

/// Makes part `piece`, an output with its top variables fixed, and returns its id.
pub(crate) fn restriction(
    store: &Store,
    session: &mut Session,
    tables: &Tables,
    piece: usize,
) -> Result<NodeId, StoreFull>
    requires session { session.old.store ≡ store.now }
    requires tables { IsForTables store.now.plan tables.now }
    requires piece { piece < store.now.plan.roots }
    ensures made { Makes session.old session.new result (piece_function store.now.plan piece) }
    ensures kept { KeepsSubfunctions session.old session.new }
    ensures level { IfOk result
        (λ id. length (top_variables (order_of store.now.plan)) ≤ depth_in session.new id) }
{
    let order = store.order().variables();
    let level = top_variables(order);
    let top_assignments = 1usize << level;
    let output = (piece / top_assignments) as u8;
    let bits = (piece % top_assignments) as u32;
    let point = point_of(order, bits);
    output_below(store, session, tables, output, Path { level, bits, point })
}
