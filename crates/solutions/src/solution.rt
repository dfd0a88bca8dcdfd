//! What the solver found.

use order_model::{ListedCell, SizedOrder};

/// The first order of the fewest nodes, and the sets and costs that its certificate lists.
#[derive(Debug, Drop)]
pub struct Solution {
    pub optimum: SizedOrder,
    /// The listed sets with their least costs, by rising mask: the lawful sets other than that of
    /// all variables whose least cost plus the number of essential variables outside is below the
    /// size of the order.
    pub cells: Vec<ListedCell>,
}
