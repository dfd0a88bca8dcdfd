ghost use Rattle.std.specs.Prelude.{◌≡◌};
ghost use Rattle.unique_table.specs.Sessions.{Knows};

use crate::fresh::fresh_store;
use op_cache::{recall, remember};
use order_model::Problem;
use unique_table::{NodeId, Operation, Session, Store};

/// Remembers that an id and 1 give the id, and recalls it.
fn keep(store: &Store, session: &mut Session, id: NodeId) -> Option<NodeId>
    requires session { session.old.store ≡ store.now }
    requires known { Knows session.old id }
    ensures { session.new.store ≡ store.now }
{
    remember(store, session, Operation::And, id, 1, id);
    recall(store, session, Operation::And, id, 1)
}

fn recalls(store: &Store, session: &mut Session) -> bool
    requires { session.old.store ≡ store.now }
{
    keep(store, session, 0) == Some(0)
        && recall(store, session, Operation::Or, 0, 1).is_none()
        && recall(store, session, Operation::And, 0, 0).is_none()
}

#[test]
fn a_cache_recalls_what_it_remembers(rt: HostRuntime) {
    let problem = Problem::new(rt.alloc(), 1, 1).expect(&rt, "memory");
    let (store, mut session) = fresh_store(&rt, rt.alloc(), &problem);
    assert!(rt; recalls(&store, &mut session));
}
