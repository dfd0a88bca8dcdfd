//! Nodes of functions that are given by terms.

ghost use Rattle.std.specs.Prelude.{◌≡◌, ◌<◌, ◌≤◌, IfOk, OnErr};
ghost use Rattle.definitions.specs.Problems.{outputs_of};
ghost use Rattle.definitions.specs.Products.{matches, product_function};
ghost use Rattle.unique_table.specs.Plans.{levels_of, variable_at, share as share_of, products_of, piece_function};
ghost use Rattle.unique_table.specs.Sessions.{Knows, Means, Follows, IsKnownBelow, function_in, depth_in};
ghost use Rattle.dd_builder.specs.Making.{Makes};
ghost use Rattle.dd_builder.specs.Parts.{IsForTerms};
ghost use Rattle.dd_builder.specs.Literals.{with_literal, with_product, product_in};

use crate::laws::stores_have_plans;
use crate::operations::apply;
use order_model::{Term, contains};
use unique_table::{NodeId, Operation, Session, Store, StoreFull, TERM_SHARES};

/// The id of the conjunction of the function of `id` and the term's literal of the variable on
/// level `level`, or `id` itself if there is none.
fn literal_and(
    store: &Store,
    session: &mut Session,
    term: Term,
    level: u8,
    id: NodeId,
) -> Result<NodeId, StoreFull>
    requires session { session.old.store ≡ store.now }
    requires level { level < levels_of store.now.plan }
    requires id { IsKnownBelow session.old level id }
    ensures made { Makes session.old session.new result
        (with_literal term (variable_at store.now.plan level) (function_in session.new id)) }
    ensures level { IfOk result (λ made. level ≤ depth_in session.new made) }
{
    let x = store.order().variables()[usize::from(level)];
    if !contains(term.care, x) {
        return Ok(id);
    }
    if contains(term.value, x) {
        store.make(session, level, 0, id)
    } else {
        store.make(session, level, id, 0)
    }
}

/// The id of the conjunction of a term's literals.
fn term_id(store: &Store, session: &mut Session, term: Term) -> Result<NodeId, StoreFull>
    requires session { session.old.store ≡ store.now }
    ensures { Makes session.old session.new result (matches (product_in store.now.plan term)) }
{
    let mut level = store.order().len() as u8;
    let mut id = 1;
    while level > 0 {
        level -= 1;
        id = literal_and(store, session, term, level, id)?;
    }
    Ok(id)
}

/// The id of the disjunction of the function of `id` and the term if this belongs to output
/// `output`, else `id`.
fn or_term(
    store: &Store,
    session: &mut Session,
    term: Term,
    output: u8,
    id: NodeId,
) -> Result<NodeId, StoreFull>
    requires session { session.old.store ≡ store.now }
    requires known { Knows session.old id }
    requires output { output < outputs_of store.now.plan.problem.value }
    requires few { output < 16 }
    ensures { Makes session.old session.new result
        (with_product (product_in store.now.plan term) output (function_in session.new id)) }
{
    if (term.outs >> output) & 1 == 0 {
        return Ok(id);
    }
    let cube = term_id(store, session, term)?;
    apply(store, session, Operation::Or, id, cube)
}

/// The id of the disjunction of those terms of `output` whose index is `share` modulo
/// `TERM_SHARES`.
fn output_share(
    store: &Store,
    session: &mut Session,
    terms: &[Term],
    output: u8,
    share: usize,
) -> Result<NodeId, StoreFull>
    requires session { session.old.store ≡ store.now }
    requires output { output < outputs_of store.now.plan.problem.value }
    requires few { output < 16 }
    requires share { share < 64 }
    ensures { Makes session.old session.new result
        (product_function (share_of share (products_of store.now.plan.problem.value terms.now))
        output) }
{
    let mut id = 0;
    let mut number = share;
    while number < terms.len() {
        id = or_term(store, session, terms[number], output, id)?;
        number += TERM_SHARES;
    }
    Ok(id)
}

/// Makes part `piece`, a disjunction of some of the terms of output `piece / 64`, and returns its
/// id.
pub(crate) fn terms_share(
    store: &Store,
    session: &mut Session,
    terms: &[Term],
    piece: usize,
) -> Result<NodeId, StoreFull>
    requires session { session.old.store ≡ store.now }
    requires terms { IsForTerms store.now.plan terms.now }
    requires piece { piece < store.now.plan.roots }
    ensures { Makes session.old session.new result (piece_function store.now.plan piece) }
{
    stores_have_plans(store);
    let output = (piece / TERM_SHARES) as u8;
    output_share(store, session, terms, output, piece % TERM_SHARES)
}
