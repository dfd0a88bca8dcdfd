//! One level of a reduced diagram, made from the level below.

ghost use Rattle.std.specs.Prelude.{◌≡◌, ◌≢◌, ◌+◌, ◌<◌, ◌≤◌, ◌^◌, ℕ, length, IfOk, IsTrue, OnOk, map};
ghost use Rattle.std.specs.List.{All, position_or_len};
ghost use Rattle.definitions.specs.Widths.{same_pair};
ghost use Rattle.truth_table.specs.Levels.{IsLevelAbove, IsTabled, SeeksAmong, children_from, node_named, ref_named};

use indexmap::IndexSet;
use order_model::Ref;
use std::alloc::AllocError;

/// Up to so many pairs of children, comparing one node after the other is faster than hashing.
const MOST_COMPARED: usize = 64;

/// A table of the numbers of all pairs of children is faster than both over at most so many nodes.
const MOST_TABLED: usize = 2;

/// What a table has for a pair of children that has no node yet.
const NO_NUMBER: u32 = u32::MAX;

/// The numbers of all pairs of the children 0 to 3, row by row, while no pair has a node.
const NO_NODES: [u32; 16] = [
    0, NO_NUMBER, NO_NUMBER, NO_NUMBER, NO_NUMBER, 1, NO_NUMBER, NO_NUMBER, NO_NUMBER, NO_NUMBER,
    2, NO_NUMBER, NO_NUMBER, NO_NUMBER, NO_NUMBER, 3,
];

/// A node and the numbers of its children: 0 and 1 are the terminals, and k + 2 is node k of the
/// diagram's list of nodes.
#[repr(C)]
#[derive(Clone, Copy, Debug)]
pub struct NumberedNode {
    pub variable: u32,
    pub low: u32,
    pub high: u32,
}

/// The ref that a child's number stands for.
pub(crate) fn ref_of(number: u32) -> Ref
    ensures { result ≡ ref_named number }
{
    match number {
        0 => Ref::Terminal(false),
        1 => Ref::Terminal(true),
        _ => Ref::Place(number as usize - 2),
    }
}

/// The index of the first node from `nodes[base]` on with these children, or the number of nodes.
#[inline(always)]
fn place_of(nodes: &[NumberedNode], base: usize, children: (u32, u32)) -> usize
    requires { base ≤ length nodes.now }
    ensures place { result ≡ base
        + position_or_len (same_pair children) (children_from base nodes.now) }
    ensures within { result ≤ length nodes.now }
{
    let (low, high) = children;
    for place in base..nodes.len() {
        let node = nodes[place];
        if low == node.low && high == node.high {
            return place;
        }
    }
    nodes.len()
}

/// The number of the node of x with these children, appended if it isn't there. The nodes of x
/// begin at `nodes[base]`. Looks at one node after the other.
#[inline(always)]
fn compared_number(
    nodes: &mut Vec<NumberedNode>,
    base: usize,
    x: u32,
    children: (u32, u32),
) -> Result<u32, AllocError>
    requires unequal { children.0 ≢ children.1 }
    requires base { base ≤ length nodes.old.items }
    requires few { length nodes.old.items < 2 ^ 31 }
    ensures { IfOk result (SeeksAmong base x children nodes.old.items nodes.new.items) }
{
    let place = place_of(nodes, base, children);
    if place == nodes.len() {
        nodes.push(NumberedNode {
            variable: x,
            low: children.0,
            high: children.1,
        })?;
    }
    Ok(place as u32 + 2)
}

/// The number of the node of x with these children, appended if it isn't there. `pairs` has the
/// children of each node of x, in their order. If memory is refused, they may be in `pairs` alone.
fn hashed_number(
    nodes: &mut Vec<NumberedNode>,
    pairs: &mut IndexSet<(u32, u32)>,
    base: usize,
    x: u32,
    children: (u32, u32),
) -> Result<u32, AllocError>
    requires pairs { pairs.old.keys ≡ children_from base nodes.old.items }
    requires base { base ≤ length nodes.old.items }
    requires few { length nodes.old.items < 2 ^ 31 }
    requires unequal { children.0 ≢ children.1 }
    ensures number { IfOk result (SeeksAmong base x children nodes.old.items nodes.new.items) }
    ensures pairs { OnOk result (pairs.new.keys ≡ children_from base nodes.new.items) }
{
    let (place, is_new) = pairs.insert_full(children)?;
    if is_new {
        nodes.push(NumberedNode {
            variable: x,
            low: children.0,
            high: children.1,
        })?;
    }
    Ok((base + place) as u32 + 2)
}

/// The number of the node of x with these children, or of the child if both are equal. `pairs` is
/// used if `hashes` is true. If memory is refused, neither list has a meaning.
#[inline(always)]
fn number_over(
    nodes: &mut Vec<NumberedNode>,
    pairs: &mut IndexSet<(u32, u32)>,
    hashes: bool,
    base: usize,
    x: u32,
    children: (u32, u32),
) -> Result<u32, AllocError>
    requires base { base ≤ length nodes.old.items }
    requires few { length nodes.old.items < 2 ^ 31 }
    requires pairs { IsTrue hashes → pairs.old.keys ≡ children_from base nodes.old.items }
    ensures number { IfOk result (SeeksAmong base x children nodes.old.items nodes.new.items) }
    ensures pairs { OnOk result
        (IsTrue hashes → pairs.new.keys ≡ children_from base nodes.new.items) }
{
    if children.0 == children.1 {
        return Ok(children.0);
    }
    if hashes {
        return hashed_number(nodes, pairs, base, x, children);
    }
    compared_number(nodes, base, x, children)
}

/// The number of the node of x with these children, or of the child if both are equal. The node is
/// appended if it isn't in `table`, which has the numbers of all pairs of children. Takes no branch
/// that depends on them.
#[inline(always)]
fn tabled_number(
    nodes: &mut Vec<NumberedNode>,
    table: &mut [u32; 16],
    x: u32,
    children: (u32, u32),
) -> Result<u32, AllocError>
    requires low { children.0 < 4 }
    requires high { children.1 < 4 }
    requires few { length nodes.old.items < 2 ^ 31 }
    ensures number { IfOk result (λ c. (base : ℕ) → base ≤ length nodes.old.items →
        IsTabled base (children_from base nodes.old.items) table.old →
        SeeksAmong base x children nodes.old.items nodes.new.items c) }
    ensures tabled { OnOk result ((base : ℕ) → base ≤ length nodes.old.items →
        IsTabled base (children_from base nodes.old.items) table.old →
        IsTabled base (children_from base nodes.new.items) table.new) }
{
    let (low, high) = children;
    let at = (4 * low + high) as usize;
    let known = table[at];
    let before = nodes.len();
    nodes.push(NumberedNode {
        variable: x,
        low,
        high,
    })?;
    let (number, kept) = if known == NO_NUMBER {
        (before as u32 + 2, before + 1)
    } else {
        (known, before)
    };
    nodes.truncate(kept);
    table[at] = number;
    Ok(number)
}

/// Does what `add_level` does over at most two nodes.
fn add_low_level(
    nodes: &mut Vec<NumberedNode>,
    x: u32,
    numbers: &mut Vec<u32>,
) -> Result<(), AllocError>
    requires few { length nodes.old.items + length numbers.old.items < 2 ^ 31 }
    requires small { All (λ c. c < 4) numbers.old.items }
    ensures { OnOk result
        (IsLevelAbove x (map node_named nodes.old.items) numbers.old.items
        (map node_named nodes.new.items) numbers.new.items) }
{
    let half = numbers.len() / 2;
    let mut table = NO_NODES;
    for j in 0..half {
        let low = numbers[2 * j];
        let high = numbers[2 * j + 1];
        numbers[j] = tabled_number(nodes, &mut table, x, (low, high))?;
    }
    numbers.truncate(half);
    Ok(())
}

/// Appends the nodes of variable x over the children whose numbers `numbers` lists. The node with
/// the children `numbers[2j]` and `numbers[2j + 1]`, or the child if they are equal, becomes entry
/// j; an odd last entry is ignored. `pairs` is working memory. If memory is refused, none of the
/// three has a meaning.
pub(crate) fn add_level(
    nodes: &mut Vec<NumberedNode>,
    pairs: &mut IndexSet<(u32, u32)>,
    x: u32,
    numbers: &mut Vec<u32>,
) -> Result<(), AllocError>
    requires few { length nodes.old.items + length numbers.old.items < 2 ^ 31 }
    requires refs { All (λ c. c < length nodes.old.items + 2) numbers.old.items }
    ensures { OnOk result
        (IsLevelAbove x (map node_named nodes.old.items) numbers.old.items
        (map node_named nodes.new.items) numbers.new.items) }
{
    if nodes.len() <= MOST_TABLED {
        return add_low_level(nodes, x, numbers);
    }
    let half = numbers.len() / 2;
    let base = nodes.len();
    let hashes = half > MOST_COMPARED;
    if hashes {
        pairs.clear();
    }
    for j in 0..half {
        let children = (numbers[2 * j], numbers[2 * j + 1]);
        numbers[j] = number_over(nodes, pairs, hashes, base, x, children)?;
    }
    numbers.truncate(half);
    Ok(())
}
