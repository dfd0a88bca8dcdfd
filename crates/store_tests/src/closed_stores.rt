ghost use Rattle.std.specs.Prelude.{◌≡◌, ◌∷◌, [], ◌<◌};
ghost use Rattle.definitions.specs.Problems.{outputs_of};
ghost use Rattle.unique_table.specs.Plans.{order_of, output_at};
ghost use Rattle.unique_table.specs.Sessions.{Means, Follows};
ghost use Rattle.store_tests.specs.Cases.{two_tables};

use crate::fresh::fresh_store;
use order_model::{Diagram, Problem};
use std::alloc::Global;
use std::process::Abort;
use unique_table::{CloseFault, NodeId, Session, Store};

/// The conjunction and the disjunction of two variables.
fn two_functions(rt: &impl Abort, alloc: Global) -> Problem
    ensures inputs { result.inputs ≡ 2 }
    ensures tables { result.tables ≡ two_tables }
{
    let mut problem = Problem::new(alloc, 2, 2).expect(rt, "memory");
    problem.set(0, 3);
    problem.set(1, 1);
    problem.set(1, 2);
    problem.set(1, 3);
    problem
}

/// A store for these two functions under the file order, and its first session.
fn store_of_both(rt: &impl Abort, alloc: Global) -> (Store, Session)
    ensures session { result.1.store ≡ result.0 }
    ensures order { order_of result.0.plan ≡ 0 ∷ 1 ∷ [] }
    ensures tables { result.0.plan.problem.value.tables ≡ two_tables }
{
    let problem = two_functions(rt, alloc);
    fresh_store(rt, alloc, &problem)
}

/// The ids of the conjunction and of the disjunction.
fn make_both(rt: &impl Abort, store: &Store, session: &mut Session) -> (NodeId, NodeId)
    requires session { session.old.store ≡ store.now }
    requires order { order_of store.now.plan ≡ 0 ∷ 1 ∷ [] }
    requires tables { store.now.plan.problem.value.tables ≡ two_tables }
    ensures follows { Follows session.old session.new }
    ensures conjunction { Means session.new result.0 (output_at store.now.plan.problem.value 0) }
    ensures disjunction { Means session.new result.1 (output_at store.now.plan.problem.value 1) }
{
    let second = store.make(session, 1, 0, 1).expect(rt, "room");
    let conjunction = store.make(session, 0, 0, second).expect(rt, "room");
    let disjunction = store.make(session, 0, second, 1).expect(rt, "room");
    (conjunction, disjunction)
}

/// Publishes an output, which is collected just after that, and wasn't before.
fn publish_output(rt: &impl Abort, store: &Store, session: &mut Session, output: u8, id: NodeId)
    requires session { session.old.store ≡ store.now }
    requires output { output < outputs_of store.now.plan.problem.value }
    requires function { Means session.old id (output_at store.now.plan.problem.value output) }
    ensures { Follows session.old session.new }
{
    let piece = store.roots() + usize::from(output);
    let before = store.collect(session, piece);
    store.publish(session, piece, id);
    let after = store.collect(session, piece);
    assert!(rt; before.is_none() && after == Some(id));
}

/// Publishes none of the two functions, the conjunction alone or both.
fn publish_some(
    rt: &impl Abort,
    store: &Store,
    session: &mut Session,
    published: u8,
    conjunction: NodeId,
    disjunction: NodeId,
)
    requires session { session.old.store ≡ store.now }
    requires tables { store.now.plan.problem.value.tables ≡ two_tables }
    requires conjunction { Means session.old conjunction (output_at store.now.plan.problem.value 0) }
    requires disjunction { Means session.old disjunction (output_at store.now.plan.problem.value 1) }
    ensures { session.new.store ≡ store.now }
{
    if published > 0 {
        publish_output(rt, store, session, 0, conjunction);
    }
    if published > 1 {
        publish_output(rt, store, session, 1, disjunction);
    }
}

/// Makes the two functions and publishes the first `published` of them. If `further` is true it also
/// makes a node that no root reaches.
fn make_and_publish(
    rt: &impl Abort,
    store: &Store,
    session: &mut Session,
    published: u8,
    further: bool,
)
    requires session { session.old.store ≡ store.now }
    requires order { order_of store.now.plan ≡ 0 ∷ 1 ∷ [] }
    requires tables { store.now.plan.problem.value.tables ≡ two_tables }
    ensures { session.new.store ≡ store.now }
{
    let (conjunction, disjunction) = make_both(rt, store, session);
    publish_some(rt, store, session, published, conjunction, disjunction);
    if further {
        store.make(session, 0, 1, 0).expect(rt, "room");
    }
}

/// How a store closes after the first `published` of the two functions were published. If `further`
/// is true it has a node that no root reaches.
fn close_both(
    rt: &impl Abort,
    alloc: Global,
    published: u8,
    further: bool,
) -> Result<Diagram, CloseFault> {
    let (store, mut session) = store_of_both(rt, alloc);
    make_and_publish(rt, &store, &mut session, published, further);
    match store.close(alloc, session) {
        Ok(diagram) => Ok(diagram),
        Err((_, fault)) => Err(fault),
    }
}

/// Whether a store of both closes to a diagram with the three nodes of the two functions.
fn closes_to_three_nodes(rt: &impl Abort, alloc: Global, further: bool) -> bool {
    let diagram = close_both(rt, alloc, 2, further).expect(rt, "a diagram");
    diagram.size() == 3 && &diagram.level_counts()[..3] == [2, 1, 0].as_slice()
}

/// Whether this root is missing, the least one that wasn't published.
fn lacks(rt: &impl Abort, alloc: Global, root: u8) -> bool {
    close_both(rt, alloc, root, false).err() == Some(CloseFault::MissingRoot(root))
}

#[test]
fn stores_close_with_their_diagrams(rt: HostRuntime) {
    assert!(rt; closes_to_three_nodes(&rt, rt.alloc(), false));
    assert!(rt; closes_to_three_nodes(&rt, rt.alloc(), true));
    assert!(rt; lacks(&rt, rt.alloc(), 0) && lacks(&rt, rt.alloc(), 1));
}

#[test]
fn sessions_get_the_same_id(rt: HostRuntime) {
    let (store, session) = store_of_both(&rt, rt.alloc());
    let (mut one, mut two) = store.split(session);
    let first = store.make(&mut one, 1, 0, 1).expect(&rt, "room");
    let second = store.make(&mut two, 1, 0, 1).expect(&rt, "room");
    assert!(rt; first == second);
}
