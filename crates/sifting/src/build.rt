//! The levels of a reduced diagram, made from the top. The cut above a level has the distinct refs
//! that paths from the roots come to when the variables above are fixed: one for each node of the
//! level.

ghost use Rattle.std.specs.Prelude.{◌≡◌, ◌+◌, ◌*◌, ◌<◌, ◌≤◌, ◌^◌, [], length, map, IfOk, OnOk};
ghost use Rattle.std.specs.List.{All};
ghost use Rattle.definitions.specs.Orders.{IsOrder};
ghost use Rattle.definitions.specs.Diagrams.{AreNodes, IsBefore, IsOrdered, IsReduced};
ghost use Rattle.definitions.specs.OrderedGraphs.{IsDiagramUnder};
ghost use Rattle.definitions.specs.RefNumbers.{ref_named};
ghost use Rattle.sifting.specs.Cuts.{code_of, split_ref, is_true, RootsFirst, Splits, SplitsFirst, Numbers, AreLevelsOf};

use crate::levels::{Children, Level};
use indexmap::IndexSet;
use order_model::{Node, Ref, VarIx};
use std::alloc::{AllocError, Global};

/// The code of `r`: 0 and 1 for the terminals, k + 2 for node k of the diagram's list of nodes.
fn code(r: Ref) -> usize
    requires { IsBefore (2 ^ 32) r }
    ensures { result ≡ code_of r }
{
    match r {
        Ref::Terminal(false) => 0,
        Ref::Terminal(true) => 1,
        Ref::Place(place) => place + 2,
    }
}

fn reference(code: usize) -> Ref
    ensures { result ≡ ref_named code }
{
    if code < 2 {
        Ref::Terminal(code == 1)
    } else {
        Ref::Place(code - 2)
    }
}

fn references(alloc: Global, codes: &[usize]) -> Result<Vec<Ref>, AllocError>
    ensures { IfOk result (λ v. v.items ≡ map ref_named codes.now) }
{
    let mut refs = Vec::with_capacity(alloc, codes.len())?;
    for code in codes {
        refs.push(reference(*code))?;
    }
    Ok(refs)
}

/// The low and the high cofactor of `r` by `variable`: twice `r` itself if it is no node of
/// `variable`.
fn halves(nodes: &[Node], variable: VarIx, r: Ref) -> (Ref, Ref)
    requires { IsBefore (length nodes.now) r }
    ensures { result ≡ split_ref nodes.now variable r }
{
    match r {
        Ref::Terminal(_) => (r, r),
        Ref::Place(place) => {
            let node = nodes[place];
            if node.variable == variable {
                (node.low, node.high)
            } else {
                (r, r)
            }
        }
    }
}

/// Numbers the cofactors by `variable` of the refs of `cut`: appends the code of each distinct one
/// to `codes`, and to `level`, for each ref, the indexes of its cofactors there. If memory is
/// refused, both may have a part.
fn number_halves(
    n: u8,
    nodes: &[Node],
    variable: VarIx,
    cut: &[Ref],
    codes: &mut IndexSet<usize>,
    level: &mut Vec<Children>,
) -> Result<(), AllocError>
    requires nodes { AreNodes n nodes.now }
    requires small { length nodes.now < 2 ^ 32 }
    requires few { 2 * length cut.now < 2 ^ 32 }
    requires inside { All (IsBefore (length nodes.now)) cut.now }
    requires codes { codes.old.keys ≡ [] }
    requires level { level.old.items ≡ [] }
    ensures { OnOk result
        (SplitsFirst (length cut.now) nodes.now variable cut.now level.new.items codes.new.keys) }
{
    codes.reserve(cut.len())?;
    level.reserve(cut.len())?;
    for r in cut {
        let (low, high) = halves(nodes, variable, *r);
        let (off, _) = codes.insert_full(code(low))?;
        let (on, _) = codes.insert_full(code(high))?;
        level.push((off as u32, on as u32))?;
    }
    Ok(())
}

/// The nodes of the level of `variable`, one for each ref of `cut`, and the cut below. A node is
/// the indexes of its cofactors in the cut below.
fn split(
    alloc: Global,
    n: u8,
    nodes: &[Node],
    variable: VarIx,
    cut: &[Ref],
) -> Result<(Vec<Children>, Vec<Ref>), AllocError>
    requires nodes { AreNodes n nodes.now }
    requires small { length nodes.now < 2 ^ 32 }
    requires few { 2 * length cut.now < 2 ^ 32 }
    requires inside { All (IsBefore (length nodes.now)) cut.now }
    ensures { IfOk result (λ r. Splits nodes.now variable cut.now r.0.items r.1.items) }
{
    let mut codes = IndexSet::new(alloc);
    let mut level = Vec::new(alloc);
    number_halves(n, nodes, variable, cut, &mut codes, &mut level)?;
    let next = references(alloc, codes.as_slice())?;
    Ok((level, next))
}

/// Appends the code of each distinct root to `codes`, and each root's index there to `numbers`. If
/// memory is refused, both may have a part.
fn number_roots(
    roots: &[Ref],
    codes: &mut IndexSet<usize>,
    numbers: &mut Vec<u32>,
) -> Result<(), AllocError>
    requires few { length roots.now ≤ 16 }
    requires inside { All (IsBefore (2 ^ 32)) roots.now }
    requires codes { codes.old.keys ≡ [] }
    requires numbers { numbers.old.items ≡ [] }
    ensures { OnOk result
        (RootsFirst (length roots.now) roots.now numbers.new.items codes.new.keys) }
{
    for root in roots {
        let (number, _) = codes.insert_full(code(*root))?;
        numbers.push(number as u32)?;
    }
    Ok(())
}

/// The index of each root in the topmost cut, and this cut: the distinct roots.
fn first_cut(alloc: Global, size: usize, roots: &[Ref]) -> Result<(Vec<u32>, Vec<Ref>), AllocError>
    requires small { size < 2 ^ 32 }
    requires few { length roots.now ≤ 16 }
    requires inside { All (IsBefore size) roots.now }
    ensures { IfOk result (λ r. Numbers roots.now r.0.items r.1.items) }
{
    let mut codes = IndexSet::new(alloc);
    let mut numbers = Vec::new(alloc);
    number_roots(roots, &mut codes, &mut numbers)?;
    let cut = references(alloc, codes.as_slice())?;
    Ok((numbers, cut))
}

/// The values of the terminals in `cut`, the one below the lowest level.
fn terminal_values(alloc: Global, cut: &[Ref]) -> Result<Vec<bool>, AllocError>
    ensures { IfOk result (λ v. v.items ≡ map is_true cut.now) }
{
    let mut values = Vec::with_capacity(alloc, cut.len())?;
    for r in cut {
        values.push(matches!(*r, Ref::Terminal(true)))?;
    }
    Ok(values)
}

/// A reduced diagram by levels, with nodes of two equal children, so that each edge goes to the
/// next level.
#[derive(Drop)]
pub(crate) struct BuiltLevels {
    /// The index on the top level of each root's node.
    pub(crate) roots: Vec<u32>,
    /// The levels, top first.
    pub(crate) levels: Vec<Level>,
    /// The values of the terminals, to whose places the lowest level's children refer.
    pub(crate) terminals: Vec<bool>,
}

/// Turns a reduced diagram into levels. `nodes` has each node after its children.
pub(crate) fn levels_of(
    alloc: Global,
    order: &[VarIx],
    nodes: &[Node],
    roots: &[Ref],
) -> Result<BuiltLevels, AllocError>
    requires order { IsOrder (length order.now) order.now }
    requires few { length order.now ≤ 16 }
    requires diagram { IsDiagramUnder order.now nodes.now roots.now }
    requires small { length nodes.now < 2 ^ 32 }
    requires few_roots { length roots.now ≤ 16 }
    requires ordered { IsOrdered order.now (record { nodes = nodes.now; roots = roots.now }) }
    requires reduced { IsReduced (record { nodes = nodes.now; roots = roots.now }) }
    ensures { IfOk result (AreLevelsOf order.now nodes.now roots.now) }
{
    let (numbers, mut cut) = first_cut(alloc, nodes.len(), roots)?;
    let mut levels = Vec::with_capacity(alloc, order.len())?;
    for x in order {
        let (level, next) = split(alloc, order.len() as u8, nodes, *x, &cut)?;
        levels.push(Level::new(level))?;
        cut = next;
    }
    let terminals = terminal_values(alloc, &cut)?;
    Ok(BuiltLevels {
        roots: numbers,
        levels,
        terminals,
    })
}
