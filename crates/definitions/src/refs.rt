use crate::variables::VarIx;

/// What a child of a node, or a root of a diagram, refers to.
#[derive(Clone, Copy, Debug, PartialEq, Eq)]
pub enum Ref {
    /// The terminal 0 (`false`) or 1 (`true`).
    Terminal(bool),
    /// The node at this index, counted from 0, in the diagram's list of nodes.
    Place(usize),
}

/// A decision node: the low child is taken if the variable is 0, the high child if it is 1.
#[derive(Clone, Copy, Debug, PartialEq, Eq)]
pub struct Node {
    pub variable: VarIx,
    pub low: Ref,
    pub high: Ref,
}
