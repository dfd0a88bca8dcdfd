ghost use Rattle.std.specs.Prelude.{◌≡◌, ◌*◌, ◌<◌, ◌≤◌, length, replicate, IfOk};
ghost use Rattle.unique_table.specs.Plans.{IsKind, parts_count, top_assignments};
ghost use Rattle.definitions.specs.Problems.{outputs_of, TruthTables};

use crate::plan::{PieceKind, Pieces, TERM_SHARES, TermList};
use order_model::Order;
use std::alloc::{AllocError, Global};
use std::snapshot::Snapshot;

const NODE_PLACES: usize = 262_144;

const CACHE_PLACES: usize = 65_536;

/// The words of the largest store, which has 1,024 parts of outputs and 16 outputs.
const MOST_WORDS: usize = NODE_PLACES + CACHE_PLACES + 1_024 + 16;

/// No page of memory is made for these words while they are only read.
static BLANK: [u64; MOST_WORDS] = [0; MOST_WORDS];

pub(crate) fn node_places() -> usize
    ensures { result ≡ 262144 }
{
    NODE_PLACES
}

pub(crate) fn cache_places() -> usize
    ensures { result ≡ 65536 }
{
    CACHE_PLACES
}

/// The first `count` words of an empty store, all 0.
pub(crate) fn blank_words(count: usize) -> &'static [u64]
    requires { count ≤ 328720 }
    ensures { result.now ≡ replicate count 0 }
{
    &BLANK[..count]
}

/// How the outputs of a store are split into parts, with a copy of the terms.
pub(crate) fn kind_of(alloc: Global, pieces: Pieces<'_>) -> Result<PieceKind, AllocError>
    ensures { IfOk result (λ kind. IsKind kind pieces.entry) }
{
    match pieces {
        Pieces::Tables => Ok(PieceKind::Restrictions),
        Pieces::Terms(terms) => {
            let list = TermList {
                terms: terms.to_vec(alloc)?,
            };
            Ok(PieceKind::Products(Snapshot::of(&list)))
        }
    }
}

/// The number of assignments to the top two variables of `order`, or to its only one.
fn top_assignments(order: &Order) -> usize
    ensures is { result ≡ top_assignments order.now }
    ensures few { result ≤ 4 }
{
    if order.len() < 2 { 2 } else { 4 }
}

/// The number of parts of all outputs together.
pub(crate) fn parts_count(kind: &PieceKind, order: &Order, outputs: u8) -> usize
    requires { outputs ≤ 16 }
    ensures is { (t : TruthTables) → outputs ≡ outputs_of t →
        result ≡ parts_count kind.now order.now t }
    ensures few { result ≤ 1024 }
{
    let outputs = usize::from(outputs);
    match kind {
        PieceKind::Restrictions => outputs * top_assignments(order),
        PieceKind::Products(_) => outputs * TERM_SHARES,
    }
}
