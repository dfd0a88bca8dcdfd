//! A diagram and its parts.

use order_model::{Diagram, Node, Order, Ref, eval};
use std::alloc::Global;
use std::process::Abort;

/// Three inputs a, b, s: b if s is 1, else a.
const MULTIPLEXER: u64 = 0b1100_1010;

/// A node at each level of the order s, a, b, of which the last one is the root.
static NODES: [Node; 3] = [
    Node {
        variable: 0,
        low: Ref::Terminal(false),
        high: Ref::Terminal(true),
    },
    Node {
        variable: 1,
        low: Ref::Terminal(false),
        high: Ref::Terminal(true),
    },
    Node {
        variable: 2,
        low: Ref::Place(0),
        high: Ref::Place(1),
    },
];

fn multiplexer(rt: &impl Abort, alloc: Global) -> Diagram {
    let order = Order::try_from_slice(alloc, &[2, 0, 1]).expect(rt, "an order");
    let nodes = NODES.to_vec(alloc).expect(rt, "memory");
    let roots = [Ref::Place(2)].to_vec(alloc).expect(rt, "memory");
    Diagram::new(order, nodes, roots)
}

fn is_multiplexer(diagram: &Diagram) -> bool {
    if diagram.roots().len() != 1 {
        return false;
    }
    for point in 0..8u32 {
        if diagram.eval(0, point) != ((MULTIPLEXER >> point) & 1 == 1) {
            return false;
        }
    }
    true
}

/// Whether a diagram has the multiplexer's order, and a node at each of its levels.
fn has_one_a_level(diagram: &Diagram) -> bool {
    diagram.size() == 3
        && diagram.level_counts() == [1, 1, 1, 0, 0, 0, 0, 0, 0, 0, 0, 0, 0, 0, 0, 0]
        && diagram.order().variables() == [2, 0, 1].as_slice()
}

/// How many variables, nodes and roots a diagram hands out.
fn lengths_of_parts(diagram: Diagram) -> [usize; 3] {
    let (order, nodes, roots) = diagram.into_parts();
    [order.len(), nodes.len(), roots.len()]
}

#[test]
fn diagrams_have_values_and_parts(rt: HostRuntime) {
    assert!(rt; eval(3, &[], Ref::Terminal(true), 0));
    let diagram = multiplexer(&rt, rt.alloc());
    assert!(rt; is_multiplexer(&diagram) && has_one_a_level(&diagram));
    assert!(rt; lengths_of_parts(diagram) == [3, 3, 1]);
}
