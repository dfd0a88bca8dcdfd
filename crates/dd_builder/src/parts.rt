ghost use Rattle.std.specs.Prelude.{◌≡◌, ◌<◌, ◌≤◌, IfOk, OnErr};
ghost use Rattle.unique_table.specs.Plans.{piece_function};
ghost use Rattle.unique_table.specs.Sessions.{Means, Follows, depth_in};
ghost use Rattle.dd_builder.specs.Making.{Makes};
ghost use Rattle.dd_builder.specs.Parts.{IsSourceFor, KeepsFrom, part_level};

use crate::cover_terms::terms_share;
use crate::tables::restriction;
use order_model::Term;
use truth_table::Tables;
use unique_table::{NodeId, Session, Store, StoreFull};

/// What the parts of a store's outputs are made from.
#[derive(Clone, Copy)]
pub(crate) enum Source<'a> {
    Tables(&'a Tables),
    Terms(&'a [Term]),
}

/// Makes the nodes of part `piece`, counted over all outputs, and returns its id.
pub(crate) fn part(
    store: &Store,
    session: &mut Session,
    source: Source<'_>,
    piece: usize,
) -> Result<NodeId, StoreFull>
    requires session { session.old.store ≡ store.now }
    requires source { IsSourceFor store.now.plan source }
    requires piece { piece < store.now.plan.roots }
    ensures made { Makes session.old session.new result (piece_function store.now.plan piece) }
    ensures kept { KeepsFrom source.entry session.old session.new }
    ensures level { IfOk result (λ id. part_level store.now.plan ≤ depth_in session.new id) }
{
    match source {
        Source::Tables(tables) => restriction(store, session, tables, piece),
        Source::Terms(terms) => terms_share(store, session, terms, piece),
    }
}
