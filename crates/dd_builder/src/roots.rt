ghost use Rattle.std.specs.Prelude.{◌≡◌, ◌+◌, ◌^◌, ◌<◌, ◌≤◌, length, take, IfOk, OnOk, OnErr};
ghost use Rattle.definitions.specs.Problems.{outputs_of};
ghost use Rattle.unique_table.specs.Plans.{order_of, output_at, piece_function, fixed, top_variables as top_variables_of};
ghost use Rattle.unique_table.specs.Sessions.{Means, Follows, depth_in};
ghost use Rattle.dd_builder.specs.Building.{KnowsFull, AreRestrictions};
ghost use Rattle.dd_builder.specs.Making.{Makes};
ghost use Rattle.dd_builder.specs.Paths.{output_along};
ghost use Rattle.dd_builder.specs.Subfunctions.{KeepsSubfunctions};
ghost use Rattle.dd_builder.specs.Parts.{IsSourceFor, AreOfTerms, KeepsFrom, KnowsParts, KnowsRoots, part_level, shares_union};

use crate::laws::stores_have_plans;
use crate::operations::apply;
use crate::parts::Source;
use crate::tables::top_variables;
use unique_table::{NodeId, Operation, Session, Store, StoreFull, TERM_SHARES};

/// The published id of part `piece`. No node is made.
fn part_id(store: &Store, session: &mut Session, piece: usize) -> NodeId
    requires session { KnowsParts store.now session.old }
    requires piece { piece < store.now.plan.roots }
    ensures follows { Follows session.old session.new }
    ensures made { session.new.made ≡ session.old.made }
    ensures function { Means session.new result (piece_function store.now.plan piece) }
    ensures level { part_level store.now.plan ≤ depth_in session.new result }
{
    stores_have_plans(store);
    match store.collect(session, piece) {
        Some(id) => id,
        None => unreachable!(),
    }
}

/// The id of output `output` with the variables of the levels 0 to `level - 1` fixed, that of level
/// i to bit i of `path`, made from its published parts.
fn of_restrictions(
    store: &Store,
    session: &mut Session,
    output: u8,
    level: u8,
    path: usize,
) -> Result<NodeId, StoreFull>
    requires session { KnowsParts store.now session.old }
    requires kind { AreRestrictions store.now.plan.kind }
    requires output { output < outputs_of store.now.plan.problem.value }
    requires level { level ≤ length (top_variables_of (order_of store.now.plan)) }
    requires path { path < 2 ^ level }
    ensures made { Makes session.old session.new result
        (output_along store.now.plan level path output) }
    ensures kept { KeepsSubfunctions session.old session.new }
    ensures level { IfOk result (λ id. level ≤ depth_in session.new id) }
{
    let top_variables = top_variables(store.order().variables());
    if level == top_variables {
        return Ok(part_id(
            store,
            session,
            (usize::from(output) << top_variables) + path,
        ));
    }
    let low = of_restrictions(store, session, output, level + 1, path)?;
    let high = of_restrictions(store, session, output, level + 1, path + (1 << level))?;
    store.make(session, level, low, high)
}

/// The id of the disjunction of `count` published parts of `output`, from its part `first` on.
fn of_shares(
    store: &Store,
    session: &mut Session,
    output: u8,
    first: usize,
    count: usize,
) -> Result<NodeId, StoreFull>
    requires session { KnowsParts store.now session.old }
    requires kind { AreOfTerms store.now.plan.kind }
    requires output { output < outputs_of store.now.plan.problem.value }
    requires some { 1 ≤ count }
    requires inside { first + count ≤ 64 }
    ensures { Makes session.old session.new result
        (shares_union store.now.plan output first count) }
{
    stores_have_plans(store);
    if count == 1 {
        let part = usize::from(output) * TERM_SHARES + first;
        return Ok(part_id(store, session, part));
    }
    let half = count / 2;
    let lower = of_shares(store, session, output, first, half)?;
    let upper = of_shares(store, session, output, first + half, count - half)?;
    apply(store, session, Operation::Or, lower, upper)
}

/// The id of the disjunction of all published parts of `output`.
fn of_all_shares(store: &Store, session: &mut Session, output: u8) -> Result<NodeId, StoreFull>
    requires session { KnowsParts store.now session.old }
    requires kind { AreOfTerms store.now.plan.kind }
    requires output { output < outputs_of store.now.plan.problem.value }
    ensures { Makes session.old session.new result (output_at store.now.plan.problem.value output) }
{
    stores_have_plans(store);
    of_shares(store, session, output, 0, TERM_SHARES)
}

/// The id of output `output`, made from its published parts.
fn root(
    store: &Store,
    session: &mut Session,
    source: Source<'_>,
    output: u8,
) -> Result<NodeId, StoreFull>
    requires session { KnowsParts store.now session.old }
    requires source { IsSourceFor store.now.plan source }
    requires output { output < outputs_of store.now.plan.problem.value }
    ensures made { Makes session.old session.new result
        (output_at store.now.plan.problem.value output) }
    ensures kept { KeepsFrom source.entry session.old session.new }
{
    match source {
        Source::Tables(_) => of_restrictions(store, session, output, 0, 0),
        Source::Terms(_) => of_all_shares(store, session, output),
    }
}

/// Makes all outputs from their published parts, and publishes them. After an error some may be
/// published.
pub(crate) fn publish_roots(
    store: &Store,
    session: &mut Session,
    source: Source<'_>,
) -> Result<(), StoreFull>
    requires session { KnowsParts store.now session.old }
    requires source { IsSourceFor store.now.plan source }
    ensures follows { Follows session.old session.new }
    ensures kept { KeepsFrom source.entry session.old session.new }
    ensures roots { OnOk result (KnowsRoots session.new) }
    ensures full { OnErr result (KnowsFull session.new) }
{
    let roots = store.roots();
    for output in 0..(store.pieces() - roots) as u8 {
        let id = root(store, session, source, output)?;
        store.publish(session, roots + usize::from(output), id);
    }
    Ok(())
}
