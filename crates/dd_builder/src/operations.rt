//! Operations on the functions of two ids.

ghost use Rattle.std.specs.Prelude.{◌≡◌, ◌==◌, ℕ, ◌+◌, ◌-◌, ◌<◌, ◌≤◌, if◌then◌else◌, IfOk, IfSome, IfNone, None, OnErr, Some, min};
ghost use Rattle.unique_table.specs.Plans.{levels_of};
ghost use Rattle.unique_table.specs.Sessions.{Knows, Follows, HasUniqueIds, LiesNoHigher, combined_in, depth_in};
ghost use Rattle.dd_builder.specs.Building.{KnowsFull};
ghost use Rattle.dd_builder.specs.Making.{Makes};
ghost use Rattle.dd_builder.specs.Operating.{AreOperands, IsFrom, IsSettled, IsCut, AreCombined};

use op_cache::{recall, remember};
use unique_table::{NodeId, Operation, Session, Store, StoreFull};

/// `second` if `first` is `neutral`, or `first` if `second` is.
fn beside_neutral(neutral: NodeId, first: NodeId, second: NodeId) -> Option<NodeId>
    ensures { result ≡ (if first == neutral then Some second
        else if second == neutral then Some first else None) }
{
    if first == neutral {
        Some(second)
    } else if second == neutral {
        Some(first)
    } else {
        None
    }
}

/// The id of the conjunction, if one of the ids is a terminal or both are equal.
fn terminal_case_of_and(first: NodeId, second: NodeId) -> Option<NodeId>
    ensures { IsSettled Operation.And first second result }
{
    if first == 0 || second == 0 {
        Some(0)
    } else if first == second {
        Some(first)
    } else {
        beside_neutral(1, first, second)
    }
}

/// The id of the disjunction, if one of the ids is a terminal or both are equal.
fn terminal_case_of_or(first: NodeId, second: NodeId) -> Option<NodeId>
    ensures { IsSettled Operation.Or first second result }
{
    if first == 1 || second == 1 {
        Some(1)
    } else if first == second {
        Some(first)
    } else {
        beside_neutral(0, first, second)
    }
}

/// The id of the exclusive disjunction, if one of the ids is the terminal 0 or both are equal.
fn terminal_case_of_xor(first: NodeId, second: NodeId) -> Option<NodeId>
    ensures { IsSettled Operation.Xor first second result }
{
    if first == second {
        Some(0)
    } else {
        beside_neutral(0, first, second)
    }
}

/// The id of the result, if the ids settle it.
fn terminal_case(operation: Operation, first: NodeId, second: NodeId) -> Option<NodeId>
    ensures { IsSettled operation first second result }
{
    match operation {
        Operation::And => terminal_case_of_and(first, second),
        Operation::Or => terminal_case_of_or(first, second),
        Operation::Xor => terminal_case_of_xor(first, second),
    }
}

/// The level of a node, counted from 0 at the top. Terminals lie below all levels.
fn level_of(store: &Store, session: &mut Session, id: NodeId) -> u8
    requires session { session.old.store ≡ store.now }
    requires known { Knows session.old id }
    ensures follows { Follows session.old session.new }
    ensures level { result ≡ depth_in session.new id }
    ensures few { levels_of store.now.plan ≤ 16 }
    ensures inside { 2 ≤ id → result < levels_of store.now.plan }
{
    let levels = store.order().len();
    match store.node(session, id) {
        Some(parts) => parts.level,
        None => levels as u8,
    }
}

/// The higher of the levels of two nodes.
fn top_level(store: &Store, session: &mut Session, first: NodeId, second: NodeId) -> u8
    requires session { session.old.store ≡ store.now }
    requires operands { AreOperands session.old first second }
    ensures follows { Follows session.old session.new }
    ensures level { result ≡ min (depth_in session.new first) (depth_in session.new second) }
    ensures few { levels_of store.now.plan ≤ 16 }
    ensures inside { result < levels_of store.now.plan }
{
    let one = level_of(store, session, first);
    let two = level_of(store, session, second);
    one.min(two)
}

/// The children of a node that is on level `level`, or twice the node itself if it lies below.
fn children(store: &Store, session: &mut Session, id: NodeId, level: u8) -> (NodeId, NodeId)
    requires session { session.old.store ≡ store.now }
    requires known { Knows session.old id }
    requires level { level ≤ depth_in session.old id }
    requires inside { level < levels_of store.now.plan }
    ensures follows { Follows session.old session.new }
    ensures cut { IsCut session.new level id result.0 result.1 }
{
    match store.node(session, id) {
        Some(parts) if parts.level == level => (parts.low, parts.high),
        _ => (id, id),
    }
}

/// Two nodes, seen from the higher of their levels: the children of a node below it are the node.
#[derive(Clone, Copy)]
struct Cut {
    level: u8,
    first: (NodeId, NodeId),
    second: (NodeId, NodeId),
}

/// The higher level of two nodes, and the children of each, as seen from there.
fn take_apart(store: &Store, session: &mut Session, first: NodeId, second: NodeId) -> Cut
    requires session { session.old.store ≡ store.now }
    requires operands { AreOperands session.old first second }
    ensures follows { Follows session.old session.new }
    ensures level { (k : ℕ) → k ≤ depth_in session.old first → k ≤ depth_in session.old second →
        k ≤ result.level }
    ensures few { levels_of store.now.plan ≤ 16 }
    ensures inside { result.level < levels_of store.now.plan }
    ensures first { IsCut session.new result.level first result.first.0 result.first.1 }
    ensures second { IsCut session.new result.level second result.second.0 result.second.1 }
{
    let level = top_level(store, session, first, second);
    let first = children(store, session, first, level);
    let second = children(store, session, second, level);
    Cut {
        level,
        first,
        second,
    }
}

/// Applies `operation` to the functions of two ids, neither of which lies above level `from`.
fn apply_from(
    store: &Store,
    session: &mut Session,
    operation: Operation,
    first: NodeId,
    second: NodeId,
    from: u8,
) -> Result<NodeId, StoreFull>
    requires session { session.old.store ≡ store.now }
    requires first { IsFrom session.old from first }
    requires second { IsFrom session.old from second }
    requires from { from ≤ levels_of store.now.plan }
    ensures follows { Follows session.old session.new }
    ensures combined { IfOk result
        (AreCombined session.old session.new operation first second) }
    ensures full { OnErr result (KnowsFull session.new) }
{
    if let Some(id) = terminal_case(operation, first, second) {
        return Ok(id);
    }
    if let Some(id) = recall(store, session, operation, first, second) {
        return Ok(id);
    }
    let cut = take_apart(store, session, first, second);
    let below = cut.level + 1;
    let low = apply_from(store, session, operation, cut.first.0, cut.second.0, below)?;
    let high = apply_from(store, session, operation, cut.first.1, cut.second.1, below)?;
    let id = store.make(session, cut.level, low, high)?;
    remember(store, session, operation, first, second, id);
    Ok(id)
}

/// Applies `operation` to the functions of two ids (Bryant's apply), and returns the id of the
/// result. Allocates no memory; results are remembered in the store's operation cache.
pub fn apply(
    store: &Store,
    session: &mut Session,
    operation: Operation,
    first: NodeId,
    second: NodeId,
) -> Result<NodeId, StoreFull>
    requires session { session.old.store ≡ store.now }
    requires known { Knows session.old first × Knows session.old second }
    ensures made { Makes session.old session.new result
        (combined_in session.new operation first second) }
    ensures level { IfOk result (LiesNoHigher session.new first second) }
    ensures unique { HasUniqueIds session.new }
{
    let made = apply_from(store, session, operation, first, second, 0);
    store.canonical_ids(session);
    made
}
