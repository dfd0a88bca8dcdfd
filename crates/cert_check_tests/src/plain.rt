//! A checker written apart, for at most six variables: plain loops over truth tables, each packed
//! in a word of 64 points.

ghost use Rattle.std.specs.Prelude.{◌<◌};

use cert_check::{Reason, Verdict};
use certificate::Certificate;
use order_model::{ListedCell, Mask, VarIx};
use std::alloc::Global;
use std::process::Abort;
use truth_table::Tables;

fn fixed_outside(function: u64, set: Mask, point: u32) -> u64 {
    let set = u32::from(set);
    let mut fixed = 0;
    for at in 0..64u32 {
        let from = (at & set) | (point & !set);
        if (function >> (from % 64)) & 1 == 1 {
            fixed |= 1 << at;
        }
    }
    fixed
}

fn depends(function: u64, x: VarIx) -> bool
    requires { x < 6 }
{
    for at in 0..64u32 {
        let other = at ^ (1 << x);
        if (function >> at) & 1 != (function >> (other % 64)) & 1 {
            return true;
        }
    }
    false
}

/// How many functions are left if the variables outside a set and one more are fixed in all ways,
/// of those that depend on that one.
fn width(rt: &impl Abort, alloc: Global, functions: &[u64], set: Mask, x: VarIx) -> u64
    requires { x < 6 }
{
    let mut left = Vec::new(alloc);
    for function in functions {
        for point in 0..64u32 {
            let fixed = fixed_outside(*function, set | (1 << x), point);
            if depends(fixed, x) && !left.contains(&fixed) {
                left.push(fixed).expect(rt, "memory");
            }
        }
    }
    left.len() as u64
}

/// A set, a variable outside it, and the width.
type Edge = (Mask, VarIx, u64);

/// What the checker asks of the functions: the mask of all variables, that of those on which some
/// function depends, and each edge, by its set and then by its variable, with its width.
#[derive(Drop)]
pub(crate) struct Plain {
    all: Mask,
    essential: Mask,
    edges: Vec<Edge>,
}

fn functions_of(rt: &impl Abort, alloc: Global, tables: &Tables, all: Mask) -> Vec<u64> {
    let problem = tables.problem();
    let mut functions = Vec::new(alloc);
    for output in 0..problem.outputs() {
        let table = problem.words(output).first().copied().unwrap_or(0);
        functions
            .push(fixed_outside(table, all, 0))
            .expect(rt, "memory");
    }
    functions
}

fn some_depends(functions: &[u64], x: VarIx) -> bool
    requires { x < 6 }
{
    for function in functions {
        if depends(*function, x) {
            return true;
        }
    }
    false
}

fn essential_of(functions: &[u64]) -> Mask {
    let mut essential = 0;
    for x in 0..6u8 {
        if some_depends(functions, x) {
            essential |= 1 << x;
        }
    }
    essential
}

/// Each edge, by its set and then by its variable, with its width.
fn edges_of(rt: &impl Abort, alloc: Global, functions: &[u64], all: Mask) -> Vec<Edge> {
    let mut edges = Vec::new(alloc);
    for set in 0..all {
        for x in 0..6u8 {
            if (all & !set) >> x & 1 == 1 {
                let edge = (set, x, width(rt, alloc, functions, set, x));
                edges.push(edge).expect(rt, "memory");
            }
        }
    }
    edges
}

impl Plain {
    pub(crate) fn of(rt: &impl Abort, alloc: Global, tables: &Tables) -> Plain {
        let all = (1 << tables.problem().inputs().min(6)) - 1;
        let functions = functions_of(rt, alloc, tables, all);
        Plain {
            all,
            essential: essential_of(&functions),
            edges: edges_of(rt, alloc, &functions, all),
        }
    }

    fn lower_bound(&self, cert: &Certificate, set: Mask) -> u32 {
        if cert.format() == 1 {
            0
        } else {
            (self.essential & !set).count_ones()
        }
    }

    fn value(&self, cert: &Certificate, set: Mask) -> u32 {
        if set == self.all {
            return cert.total();
        }
        let left = cert.total().saturating_sub(self.lower_bound(cert, set));
        listed_cost(cert, set).unwrap_or(left)
    }

    /// Whether the cost of a listed cell, with the nodes that must stand above its set, is above the total.
    fn is_too_big(&self, cert: &Certificate, cell: &ListedCell) -> bool {
        cell.cost.saturating_add(self.lower_bound(cert, cell.mask)) > cert.total()
    }

    /// Whether an edge between lawful sets, from a listed one, has a width that is too small.
    fn is_broken(&self, cert: &Certificate, edge: &Edge) -> bool {
        let (mask, x, width) = edge;
        let above = mask | (1 << (x % 16));
        if listed_cost(cert, *mask).is_none()
            || !is_lawful(cert, *mask)
            || !is_lawful(cert, above)
        {
            return false;
        }
        let reached = u64::from(self.value(cert, *mask)).saturating_add(*width);
        u64::from(self.value(cert, above)) > reached
    }

    pub(crate) fn verdict(&self, cert: &Certificate) -> Verdict {
        if self.value(cert, 0) != 0 {
            return Verdict::Invalid(Reason::Start);
        }
        for cell in cert.cells() {
            if self.is_too_big(cert, cell) {
                return Verdict::Invalid(Reason::CellTooBig);
            }
        }
        for edge in &self.edges {
            if self.is_broken(cert, edge) {
                let (mask, x, _) = edge;
                return Verdict::Invalid(Reason::Edge { mask: *mask, x: *x });
            }
        }
        Verdict::Valid
    }
}

/// The cost of a set, if it is listed.
fn listed_cost(cert: &Certificate, set: Mask) -> Option<u32> {
    for cell in cert.cells() {
        if cell.mask == set {
            return Some(cell.cost);
        }
    }
    None
}

/// Whether a set has b if it has a, of each pair (a, b).
fn is_lawful(cert: &Certificate, set: Mask) -> bool {
    for (a, b) in cert.pairs() {
        if (set >> (a % 16)) & 1 == 1 && (set >> (b % 16)) & 1 == 0 {
            return false;
        }
    }
    true
}
