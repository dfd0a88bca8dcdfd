//! The bounds within which a certificate can be written as text.

ghost use Rattle.std.specs.Prelude.{◌≡◌, ◌≤◌, ◌^◌, ◌-◌, ◌↔◌, ℕ, None, IsTrue, IsFalse, length};
ghost use Rattle.std.specs.List.{All};
ghost use Rattle.certificate.specs.Spelling.{HasSpelling, most_nodes, most_pairs, pair_key};
ghost use Rattle.certificate.specs.Values.{contents, fit, is_above as above, is_cell_of, is_pair_of, mask_in};

use crate::certificate::CertificateParts;
use order_model::{ListedCell, VarIx};

/// The largest cost, level count and total.
pub(crate) const MOST_NODES: u32 = 999_999;

/// As many as there are pairs of different variables: 16 * 15.
pub(crate) const MOST_PAIRS: usize = 240;

/// How many proper subsets n variables have, which is also the mask of all n variables.
pub(crate) fn sets_below_all(n: u8) -> u32
    requires { n ≤ 16 }
    ensures { result ≡ 2 ^ n - 1 }
{
    (1 << n) - 1
}

/// Whether `key` is above `last`, the key of the pair or listed set before it, if there is one.
pub(crate) fn is_above(last: Option<u32>, key: u32) -> bool
    ensures { result ≡ above last key }
{
    match last {
        None => true,
        Some(last) => last < key,
    }
}

/// The key of the pair (a, b), by which pairs are sorted.
pub(crate) fn key_of_pair(a: VarIx, b: VarIx) -> u32
    ensures { result ≡ pair_key (a, b) }
{
    u32::from(a) * 16 + u32::from(b)
}

/// Whether all pairs are of variables below `n`, and rise by their keys.
fn pairs_rise(n: u8, pairs: &[(VarIx, VarIx)]) -> bool
    ensures { result ≡ fit (is_pair_of n) pair_key None pairs.now }
{
    let mut last = None;
    let mut rest = pairs;
    while let [(a, b), more @ ..] = rest {
        let key = key_of_pair(*a, *b);
        if *a >= n || *b >= n || !is_above(last, key) {
            return false;
        }
        last = Some(key);
        rest = more;
    }
    true
}

/// Whether the listed sets are proper subsets of `n` variables, and rise by their masks.
fn cells_rise(n: u8, cells: &[ListedCell]) -> bool
    requires { n ≤ 16 }
    ensures { result ≡ fit (is_cell_of n) mask_in None cells.now }
{
    let mut last = None;
    let mut rest = cells;
    while let [cell, more @ ..] = rest {
        let mask = u32::from(cell.mask);
        if mask >= sets_below_all(n) || cell.cost > MOST_NODES || !is_above(last, mask) {
            return false;
        }
        last = Some(mask);
        rest = more;
    }
    true
}

fn count_fits(count: u8) -> bool
    ensures { IsTrue result ↔ ((1 ≤ count) × (count ≤ 16)) }
{
    1 <= count && count <= 16
}

/// Whether `order` has n entries from 0 to 15. It need not be an order: an entry may repeat.
fn order_fits(n: u8, order: &[VarIx]) -> bool
    ensures { IsTrue result ↔ ((length order.now ≡ n) × All (λ x. x ≤ 15) order.now) }
{
    order.len() == n as usize && order.iter().all(|x| *x <= 15)
}

fn levels_fit(n: u8, levels: &[u32]) -> bool
    ensures { IsTrue result ↔
        ((length levels.now ≡ n) × All (λ count. count ≤ most_nodes) levels.now) }
{
    levels.len() == n as usize && levels.iter().all(|count| *count <= MOST_NODES)
}

fn pairs_fit(n: u8, pairs: &[(VarIx, VarIx)]) -> bool
    ensures { IsTrue result ↔
        ((length pairs.now ≤ most_pairs) × IsTrue (fit (is_pair_of n) pair_key None pairs.now)) }
{
    pairs.len() <= MOST_PAIRS && pairs_rise(n, pairs)
}

fn cells_fit(n: u8, cells: &[ListedCell]) -> bool
    requires { n ≤ 16 }
    ensures { IsTrue result ↔
        ((length cells.now ≤ 2 ^ n - 1) × IsTrue (fit (is_cell_of n) mask_in None cells.now)) }
{
    cells.len() <= sets_below_all(n) as usize && cells_rise(n, cells)
}

/// Whether a certificate with these parts can be written as text.
pub(crate) fn have_spelling(parts: &CertificateParts) -> bool
    ensures spelled { IsTrue result → HasSpelling (contents parts.now) }
    ensures unspelled { IsFalse result → HasSpelling (contents parts.now) → ⊥ }
{
    let n = parts.inputs;
    if !count_fits(n) {
        return false;
    }
    if !count_fits(parts.outputs) {
        return false;
    }
    if !order_fits(n, &parts.order) {
        return false;
    }
    if !levels_fit(n, &parts.levels) {
        return false;
    }
    if parts.total > MOST_NODES {
        return false;
    }
    if !pairs_fit(n, parts.kept_pairs()) {
        return false;
    }
    cells_fit(n, &parts.cells)
}
