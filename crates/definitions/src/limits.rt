//! What prunes a search.

/// The rule of the lower bound on the number of nodes above a set of variables: on nodes of the
/// variables outside the set, if the set's variables are the lowest in the order.
#[derive(Clone, Copy, Debug, PartialEq, Eq)]
pub enum LowerBound {
    /// One node for each variable outside the set on which some function depends.
    Variables,
    /// The maximum of the bound by `Variables` and, over the members x of the set, of max(0, w(x) -
    /// d(x)) + e(x). Here w(x) is the width of x over the other members, d(x) the number of
    /// functions that depend on x, and e(x) the number of variables outside the set on which some
    /// function depends that doesn't depend on x.
    Widths,
}

/// What prunes the sets of a search.
#[derive(Clone, Copy, Debug, PartialEq, Eq)]
pub struct Limit {
    /// The upper bound. A set is pruned if its least cost (the fewest nodes of its variables, if
    /// these are the lowest in an order that keeps the pairs) plus the lower bound above it exceeds
    /// this.
    pub bound: u32,
    pub lower_bound: LowerBound,
}
