use crate::orders::Order;

/// An order with its level counts and its size, such as the first order of the fewest nodes.
#[derive(Debug, Drop)]
pub struct SizedOrder {
    pub order: Order,
    /// The size: the sum of the level counts.
    pub total: u32,
    /// The level counts, top first.
    pub levels: Vec<u32>,
}
