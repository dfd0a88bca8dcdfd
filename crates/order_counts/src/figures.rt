//! Over all orders: how many there are, the fewest and the most nodes, how many orders have each of
//! these two sizes, and the sum of all sizes.

ghost use Rattle.std.specs.Prelude.{◌≡◌, ◌≢◌, ℕ, ◌+◌, ◌*◌, ◌^◌, ◌<◌, ◌≤◌, length, IfOk, IsTrue};
ghost use Rattle.definitions.specs.Problems.{functions};
ghost use Rattle.definitions.specs.Orders.{members};
ghost use Rattle.definitions.specs.Pairs.{is_lawful};
ghost use Rattle.definitions.specs.AllOrders.{AreAllWidths, AreWidthsIn};
ghost use Rattle.order_counts.specs.Figures.{AreFigures, AreFiguresBelow, AreFiguresOf, AreFiguresOfOrders, IsGreatestOf, IsLeastOf, IsTidy, both, raised};

use order_model::{Mask, Pairs, Problem, WidthRow, contains};
use std::alloc::{AllocError, Global};

/// A number of nodes, and how many orders have it.
#[derive(Clone, Copy, Debug, PartialEq, Eq)]
pub struct SizeCount {
    /// The number of nodes.
    pub nodes: u32,
    /// How many orders have so many nodes.
    pub orders: u64,
}

impl SizeCount {
    /// As many orders, each with `width` more nodes.
    fn raised(self, width: u32) -> SizeCount
        requires { self.nodes + width < 2 ^ 32 }
        ensures nodes { result.nodes ≡ self.nodes + width }
        ensures orders { result.orders ≡ self.orders }
    {
        SizeCount {
            nodes: self.nodes + width,
            orders: self.orders,
        }
    }

    /// How many of these orders have so many nodes: all, or none.
    fn orders_of(self, nodes: u32) -> u64
        ensures same { self.nodes ≡ nodes → result ≡ self.orders }
        ensures other { self.nodes ≢ nodes → result ≡ 0 }
    {
        if self.nodes == nodes { self.orders } else { 0 }
    }

    /// The fewer nodes of `self` and `other`, and how many orders of both kinds have so many.
    fn fewer(self, other: SizeCount) -> SizeCount
        requires { self.orders + other.orders < 2 ^ 64 }
        ensures least { (f g : ℕ → ℕ) → IsLeastOf f self → IsLeastOf g other →
            IsLeastOf (both f g) result }
        ensures orders { result.orders ≤ self.orders + other.orders }
        ensures nodes { (result.nodes ≤ self.nodes) × (result.nodes ≤ other.nodes) }
    {
        let nodes = self.nodes.min(other.nodes);
        SizeCount {
            nodes,
            orders: self.orders_of(nodes) + other.orders_of(nodes),
        }
    }

    /// The more nodes of `self` and `other`, and how many orders of both kinds have so many.
    fn more(self, other: SizeCount) -> SizeCount
        requires { self.orders + other.orders < 2 ^ 64 }
        ensures greatest { (f g : ℕ → ℕ) → IsGreatestOf f self → IsGreatestOf g other →
            IsGreatestOf (both f g) result }
        ensures orders { result.orders ≤ self.orders + other.orders }
        ensures nodes { (self.nodes ≤ result.nodes) × (other.nodes ≤ result.nodes) }
    {
        let nodes = self.nodes.max(other.nodes);
        SizeCount {
            nodes,
            orders: self.orders_of(nodes) + other.orders_of(nodes),
        }
    }
}

/// Of all orders, or of the orders of a set's variables: how many there are, the fewest and the
/// most nodes, and the sum of the nodes of all orders.
#[derive(Clone, Copy, Debug, PartialEq, Eq)]
pub struct Figures {
    /// How many orders there are.
    pub count: u64,
    /// The fewest nodes, and how many orders have so many.
    pub fewest: SizeCount,
    /// The most nodes, and how many orders have so many.
    pub most: SizeCount,
    /// The sum of the nodes of all orders.
    pub total: u64,
}

impl Figures {
    /// The figures of `count` orders without nodes.
    fn without_nodes(count: u64) -> Figures
        ensures count { result.count ≡ count }
        ensures total { result.total ≡ 0 }
        ensures fewest { result.fewest ≡ record { nodes = 0; orders = count } }
        ensures most { result.most ≡ record { nodes = 0; orders = count } }
    {
        let no_nodes = SizeCount {
            nodes: 0,
            orders: count,
        };
        Figures {
            count,
            fewest: no_nodes,
            most: no_nodes,
            total: 0,
        }
    }

    /// Adds the orders of `below` with one more variable on top, whose level has `width` nodes.
    fn add(&mut self, below: &Figures, width: u32)
        requires tidy { IsTidy self.old × IsTidy below.now }
        requires count { self.old.count + below.now.count < 2 ^ 64 }
        requires total { self.old.total + (below.now.total + width * below.now.count) < 2 ^ 64 }
        requires most { 0 < below.now.count → below.now.most.nodes + width < 2 ^ 32 }
        ensures tidy { IsTidy self.new }
        ensures count { self.new.count ≡ self.old.count + below.now.count }
        ensures total { self.new.total ≡ self.old.total + (below.now.total + width * below.now.count) }
        ensures figures { (f g : ℕ → ℕ) → AreFigures f self.old → AreFigures g below.now →
            AreFigures (both f (raised g width)) self.new }
    {
        if below.count > 0 {
            let fewest = below.fewest.raised(width);
            let most = below.most.raised(width);
            if self.count == 0 {
                self.fewest = fewest;
                self.most = most;
            } else {
                self.fewest = self.fewest.fewer(fewest);
                self.most = self.most.more(most);
            }
        }
        self.count += below.count;
        self.total += below.total + u64::from(width) * below.count;
    }
}

/// The figures of the orders of the members of the lawful set `set` whose bottom parts are all
/// lawful, that is, stand at the bottom of an order that keeps `pairs`. Their nodes are those of
/// the members, if these have the lowest levels. Entry x of `row` is the width of x over the other
/// members, and entry m of `smaller` has the figures of the set with the mask m. Requires that
/// `set` isn't empty, and that `smaller` has entries for all smaller masks.
fn figures_of_set(
    problem: &Problem,
    pairs: &Pairs,
    row: &WidthRow,
    smaller: &[Figures],
    set: Mask,
) -> Figures
    requires few { length (functions problem.now) ≤ 16 }
    requires some { 0 < set }
    requires within { set < 2 ^ pairs.now.inputs }
    requires lawful { IsTrue (is_lawful pairs.now.pairs (members pairs.now.inputs set)) }
    requires row { AreWidthsIn pairs.now.inputs (functions problem.now) set row.now }
    requires smaller { AreFiguresBelow pairs.now.inputs (functions problem.now) pairs.now.pairs set smaller.now }
    ensures { AreFiguresOf pairs.now.inputs (functions problem.now) pairs.now.pairs
        (members pairs.now.inputs set) result }
{
    let mut figures = Figures::without_nodes(0);
    for x in 0..pairs.inputs() {
        if contains(set, x) {
            figures.add(&smaller[(set - (1 << x)) as usize], row[x as usize]);
        }
    }
    figures
}

/// The figures of all orders that keep `pairs`. Entry m of `widths` is the row of the set with the
/// mask m: at each member x the width of x over the other members. Takes a step for each member of
/// each set, and 48 bytes for each set.
pub fn figures_of_orders(
    alloc: Global,
    problem: &Problem,
    pairs: &Pairs,
    widths: &[WidthRow],
) -> Result<Figures, AllocError>
    requires few { length (functions problem.now) ≤ 16 }
    requires widths { AreAllWidths pairs.now.inputs (functions problem.now) widths.now }
    ensures { IfOk result (AreFiguresOfOrders pairs.now.inputs (functions problem.now) pairs.now.pairs) }
{
    let sets = 1usize << pairs.inputs();
    let all_lawful = pairs.count() == 0;
    let mut figures = Vec::with_capacity(alloc, sets)?;
    figures.push(Figures::without_nodes(1))?;
    for set in 1..sets {
        let lawful = all_lawful || pairs.lawful(set as Mask);
        figures.push(if lawful {
            figures_of_set(problem, pairs, &widths[set], &figures, set as Mask)
        } else {
            Figures::without_nodes(0)
        })?;
    }
    Ok(figures[sets - 1])
}
