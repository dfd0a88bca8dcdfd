ghost use Rattle.std.specs.Prelude.{◌≡◌, ◌^◌, ◌<◌, IfSome};
ghost use Rattle.unique_table.specs.Sessions.{Knows, Means, MakesStep, LiesNoHigher, combined_in};

use node_words::start;
use unique_table::{NodeId, Operation, Session, Store};

/// The place of a result in a cache of `places` places: a hash of the operation and the two ids.
fn place_of(places: usize, operation: Operation, first: NodeId, second: NodeId) -> usize
    requires some { 0 < places }
    requires few { places < 2 ^ 32 }
    ensures { result < places }
{
    let code: u64 = match operation {
        Operation::And => 1,
        Operation::Or => 2,
        Operation::Xor => 3,
    };
    start(
        places,
        (code << 60) ^ (u64::from(first) << 28) ^ u64::from(second),
    )
}

/// The id of the result of `operation`, or None if the cache doesn't hold it. Makes one atomic
/// step.
pub fn recall(
    store: &Store,
    session: &mut Session,
    operation: Operation,
    first: NodeId,
    second: NodeId,
) -> Option<NodeId>
    requires session { session.old.store ≡ store.now }
    requires known { Knows session.old first × Knows session.old second }
    ensures step { MakesStep session.old session.new 0 }
    ensures function { IfSome result
        (λ id. Means session.new id (combined_in session.new operation first second)) }
    ensures level { IfSome result (LiesNoHigher session.new first second) }
{
    let place = place_of(store.cache_places(), operation, first, second);
    store.entry(session, place, operation, first, second)
}

/// Stores `id` as the result of `operation`, in place of what was there. Makes one atomic step.
pub fn remember(
    store: &Store,
    session: &mut Session,
    operation: Operation,
    first: NodeId,
    second: NodeId,
    id: NodeId,
)
    requires session { session.old.store ≡ store.now }
    requires known { Knows session.old first × Knows session.old second }
    requires function { Means session.old id (combined_in session.old operation first second) }
    ensures step { MakesStep session.old session.new 1 }
{
    let place = place_of(store.cache_places(), operation, first, second);
    store.set_entry(session, place, operation, first, second, id);
}
