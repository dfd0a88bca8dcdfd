//! The invariant of a store's words, and the kinds of atomic steps on them.

ghost use Rattle.unique_table.specs.Invariant.{IsKept, newcomer, stepped, another, informed, spent, looks, puts, publishes, collects, recalls, remembers};

use crate::plan::Plan;
use crate::session::View;
use atomic_table::{Join, Play, Split, TableRule};

/// The invariant of a store's words: no two nodes are equal; each node's children are in the store,
/// below it; each filled cache entry has the right result, and each published id denotes its
/// piece's function; what a session saw still stands.
pub struct Words;

impl TableRule<(), View, Plan> for Words {
    ghost holds = { IsKept };

    ghost first = { newcomer };
}

/// The step that loads the word of a node.
pub(crate) struct Looks;

impl Play<(), View> for Looks {
    ghost then = { looks };
}

/// The step that stores the word of a node in a place, if the place is empty.
pub(crate) struct Puts;

impl Play<(), View> for Puts {
    ghost then = { puts };
}

/// The step that stores the id of a piece's function, plus 1, in the word of the piece.
pub(crate) struct Publishes;

impl Play<(), View> for Publishes {
    ghost then = { publishes };
}

/// The step that loads the word of a piece.
pub(crate) struct Collects;

impl Play<(), View> for Collects {
    ghost then = { collects };
}

/// The step that loads a word of the operation cache.
pub(crate) struct Recalls;

impl Play<(), View> for Recalls {
    ghost then = { recalls };
}

/// The step that stores a word of the operation cache.
pub(crate) struct Remembers;

impl Play<(), View> for Remembers {
    ghost then = { remembers };
}

/// How the view of a seat is split into halves of its stake, and how two views are joined.
pub(crate) struct Both;

impl Split<View> for Both {
    ghost left = { stepped };

    ghost right = { another };
}

impl Join<View> for Both {
    ghost both = { informed };

    ghost spent = { spent };
}
