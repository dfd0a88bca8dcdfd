use order_model::{Order, Problem, Term};
use std::marker::Model;
use std::snapshot::Snapshot;

/// What a store is for, and how many places it has. Its pieces are the parts of outputs, then the
/// outputs.
#[derive(Drop)]
pub struct Plan {
    pub places: usize,
    pub entries: usize,
    /// How many pieces are parts of outputs. The outputs are the pieces from this number on.
    pub roots: usize,
    pub pieces: usize,
    pub order: Snapshot<Order>,
    pub problem: Snapshot<Problem>,
    pub kind: PieceKind,
}

/// How many parts each output of a cover has.
pub const TERM_SHARES: usize = 64;

/// What the parts of a store's outputs are.
#[derive(Clone, Copy)]
pub enum Pieces<'a> {
    /// An output with the top two variables, or the only one, fixed.
    Tables,
    /// Part i of an output is the disjunction of those of its terms whose index in this list, of
    /// the terms of all outputs, is i modulo `TERM_SHARES`.
    Terms(&'a [Term]),
}

#[derive(Drop)]
pub struct TermList {
    pub(crate) terms: Vec<Term>,
}

impl Model for TermList {
    ghost use Rattle.std.specs.Prelude.{List};
    ghost use Rattle.definitions.specs.declared.terms.Term.{Term};

    ghost Value = { List Term };

    ghost view = { λ t. t.terms.items };
}

/// `Pieces`, as a plan has them.
#[derive(Drop)]
pub enum PieceKind {
    Restrictions,
    Products(Snapshot<TermList>),
}
