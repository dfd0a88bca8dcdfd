//! What each line of a certificate's text says.

ghost use Rattle.std.specs.Prelude.{◌≡◌, ◌≤◌, ◌∷◌, ℕ, [], codes, get_or, length, Some, IfSome, IfNone};
ghost use Rattle.certificate.specs.declared.faults.LineFault.TheVariants.{BadLine};
ghost use Rattle.certificate.specs.Spelling.{most_nodes};
ghost use Rattle.definitions.specs.Texts.{number_of};
ghost use Rattle.certificate.specs.Faults.{cell_key_of, entry_fault, field_fault, fixed_fault, is_cell, is_pair, mask_of, pair_key_of, title_fault, words};
ghost use Rattle.certificate.specs.Parsing.{Says};
ghost use Rattle.certificate.specs.Values.{is_above as above};
ghost use Rattle.definitions.specs.Listed.{listed};

use crate::bounds::{MOST_NODES, is_above, key_of_pair};
use crate::faults::LineFault;
use crate::words::{cut, mask, number};
use order_model::{ListedCell, VarIx};

/// The parts of `line` before and after its only space; each may be empty.
fn two_words(line: &[u8]) -> Option<(&[u8], &[u8])>
    ensures some { IfSome result (λ ws. words line.now ≡ ws.0.now ∷ ws.1.now ∷ []) }
    ensures none { IfNone result ((a b : _) → words line.now ≡ a ∷ b ∷ [] → ⊥) }
{
    let Some((first, rest)) = cut(line, b' ') else {
        return None;
    };
    match cut(rest, b' ') {
        None => Some((first, rest)),
        Some(_) => None,
    }
}

/// The number after `name` on a line of two words. The error is `BadLine` or `BadNumber`.
pub(crate) fn number_line(line: &[u8], name: &[u8], least: u32, most: u32) -> Result<u32, LineFault>
    requires { most ≤ most_nodes }
    ensures { Says (field_fault name.now 1 least most) line.now
        (λ value. value ≡ number_of (get_or (words line.now) 1 [])) result }
{
    let Some((word, digits)) = two_words(line) else {
        return Err(LineFault::BadLine);
    };
    if word != name {
        return Err(LineFault::BadLine);
    }
    match number(digits, least, most) {
        None => Err(LineFault::BadNumber),
        Some(value) => Ok(value),
    }
}

/// The pair of variables below `n` on a line of two numbers, above the key `last`. The error is
/// `BadLine`, `BadNumber` or `NotRising`.
pub(crate) fn pair_line(line: &[u8], n: u8, last: Option<u32>) -> Result<(VarIx, VarIx), LineFault>
    requires some { 1 ≤ n }
    requires few { n ≤ 16 }
    ensures { Says (entry_fault (is_pair n) (λ a b. above last (pair_key_of a b))) line.now
        (λ pair. pair ≡
        (number_of (get_or (words line.now) 0 []), number_of (get_or (words line.now) 1 [])))
        result }
{
    let Some((first, second)) = two_words(line) else {
        return Err(LineFault::BadLine);
    };
    let most = u32::from(n) - 1;
    let Some(a) = number(first, 0, most) else {
        return Err(LineFault::BadNumber);
    };
    let Some(b) = number(second, 0, most) else {
        return Err(LineFault::BadNumber);
    };
    let pair = (a as VarIx, b as VarIx);
    if !is_above(last, key_of_pair(pair.0, pair.1)) {
        return Err(LineFault::NotRising);
    }
    Ok(pair)
}

/// The listed set on a line of its mask and its cost, above the mask `last`. The error is
/// `BadLine`, `BadNumber` or `NotRising`.
pub(crate) fn cell_line(line: &[u8], n: u8, last: Option<u32>) -> Result<ListedCell, LineFault>
    requires { n ≤ 16 }
    ensures { Says (entry_fault (is_cell n) (λ a b. above last (cell_key_of a b))) line.now
        (λ cell. listed cell ≡ record {
          mask = mask_of (get_or (words line.now) 0 []);
          cost = number_of (get_or (words line.now) 1 []);
        })
        result }
{
    let Some((first, second)) = two_words(line) else {
        return Err(LineFault::BadLine);
    };
    let Some(mask) = mask(first, n) else {
        return Err(LineFault::BadNumber);
    };
    let Some(cost) = number(second, 0, MOST_NODES) else {
        return Err(LineFault::BadNumber);
    };
    if !is_above(last, u32::from(mask)) {
        return Err(LineFault::NotRising);
    }
    Ok(ListedCell { mask, cost })
}

/// The format on the first line, `bddorder-certificate` and the format, or `BadLine`.
pub(crate) fn title_line(line: &[u8]) -> Result<u8, LineFault>
    ensures { Says title_fault line.now
        (λ format. format ≡ number_of (get_or (words line.now) 1 [])) result }
{
    if line == b"bddorder-certificate 1".as_slice() {
        Ok(1)
    } else if line == b"bddorder-certificate 2".as_slice() {
        Ok(2)
    } else {
        Err(LineFault::BadLine)
    }
}

/// Accepts the line `end`, or returns `BadLine`.
pub(crate) fn end_line(line: &[u8]) -> Result<(), LineFault>
    ensures { Says (fixed_fault (codes "end" ∷ [])) line.now (λ _. Unit {0}) result }
{
    if line == b"end".as_slice() {
        Ok(())
    } else {
        Err(LineFault::BadLine)
    }
}

fn count_words(text: &[u8]) -> usize
    ensures { result ≡ length (words text.now) }
{
    let mut count = 1;
    let mut rest = text;
    while let Some((_, more)) = cut(rest, b' ') {
        count += 1;
        rest = more;
    }
    count
}

/// The rest of `line` behind the word `name` if `count` words follow it.
pub(crate) fn behind_name<'a>(line: &'a [u8], name: &[u8], count: usize) -> Option<&'a [u8]>
    requires { 1 ≤ count }
    ensures some { IfSome result
        (λ rest. (words line.now ≡ name.now ∷ words rest.now) × (length (words rest.now) ≡ count)) }
    ensures none { IfNone result
        ((least most : ℕ) → field_fault name.now count least most (words line.now) ≡ Some BadLine) }
{
    let Some((word, rest)) = cut(line, b' ') else {
        return None;
    };
    if word != name {
        return None;
    }
    if count_words(rest) != count {
        return None;
    }
    Some(rest)
}
