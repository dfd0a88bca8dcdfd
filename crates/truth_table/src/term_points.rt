//! Packed truth tables from product terms. A group is 32 consecutive words of each table.

ghost use Rattle.std.specs.Prelude.{◌≡◌, ◌+◌, ◌*◌, ◌^◌, ◌<◌, ◌≤◌, ◌==◌, ℕ, false, length, map, nat_lt, IfOk, IsFalse, if◌then◌else◌, bit_and, bit_or, get_or, slice_index, ◌/◌, ◌%◌, []};
ghost use Rattle.std.specs.Int.{bit_at};
ghost use Rattle.std.specs.List.{All};
ghost use Rattle.definitions.specs.Functions.{table};
ghost use Rattle.definitions.specs.Problems.{IsPacked, packed_tables, tables_of};
ghost use Rattle.definitions.specs.Products.{product_functions, product_of};
ghost use Rattle.pla_reader.specs.Masks.{Fits};
ghost use Rattle.truth_table.specs.OfCovers.{AreTablesOf};
ghost use Rattle.truth_table.specs.Terms.{AddsTerm, AreGroupWords, literal_at, literals_at};

use order_model::packed::{lower_half, words_per_table};
use order_model::{Term, VarIx, contains};
use pla_reader::Cover;
use rayon::prelude::*;
use std::alloc::{AllocError, Global};
use std::thread::Threads;

const GROUP_WORDS: usize = 32;

/// Entry [p][o] is word p of the group in the table of output o.
type GroupWords = [[u64; 16]; 32];

/// The points of a word at which the term's literal of variable x holds.
fn literal_points(term: Term, x: VarIx) -> u64
    requires { x < 6 }
    ensures { (b : ℕ) → b < 64 → (bit_at result b == 1) ≡ literal_at term b x }
{
    if !contains(term.care, x) {
        return u64::MAX;
    }
    let lower = lower_half(x);
    if contains(term.value, x) {
        !lower
    } else {
        lower
    }
}

/// The points of a word at which the literals of variables 0 to 5 hold: the same for all words.
fn pattern(term: Term) -> u64
    ensures { (b : ℕ) → b < 64 → (bit_at result b == 1) ≡ literals_at term b 0 6 }
{
    let mut points = u64::MAX;
    for x in 0..6 {
        points &= literal_points(term, x);
    }
    points
}

/// Whether the literals of variables 6 to 15 hold in word `place`, at all of its points.
fn holds_above(term: &Term, place: usize) -> bool
    requires { place < 1024 }
    ensures { result ≡ literals_at term.now (64 * place) 6 10 }
{
    place & (term.care >> 6) as usize == (term.value >> 6) as usize
}

/// Sets the bits `points` in `words[o]` for each output o of the set `outs`.
#[inline(always)]
fn add_points(words: &mut [u64; 16], outs: u16, points: u64)
    ensures { (o : ℕ) → o < 16 →
        slice_index words.new o ≡ (if bit_at outs o == 1
        then bit_or (slice_index words.old o) points else slice_index words.old o) }
{
    for output in 0..16 {
        if (outs >> output) & 1 == 1 {
            words[output] |= points;
        }
    }
}

/// Whether the literals of variables 11 to 15 hold in group `group`. If not, the term is 0 there.
fn may_hold(term: &Term, group: usize) -> bool
    requires { group < 32 }
    ensures { IsFalse result → (place : ℕ) → place < 32 →
        literals_at term.now (64 * (32 * group + place)) 6 10 ≡ false }
{
    group & (term.care >> 11) as usize == (term.value >> 11) as usize
}

/// Sets the bits of the points of group `group` at which the term is 1, in its outputs' tables.
fn add_term(words: &mut GroupWords, term: &Term, group: usize)
    requires { group < 32 }
    ensures { (place : ℕ) → place < 32 →
        AddsTerm term.now (32 * group + place) (get_or words.old place [])
        (get_or words.new place []) }
{
    let points = pattern(*term);
    for place in 0..GROUP_WORDS {
        if holds_above(term, GROUP_WORDS * group + place) {
            add_points(&mut words[place], term.outs, points);
        }
    }
}

/// Makes group `group` of the packed tables of 16 outputs.
fn group_words(terms: &[Term], group: usize) -> GroupWords
    requires { group < 32 }
    ensures { AreGroupWords terms.now group result }
{
    let mut words = [[0u64; 16]; GROUP_WORDS];
    for term in terms {
        if may_hold(term, group) {
            add_term(&mut words, term, group);
        }
    }
    words
}

/// The bits of a word that stand for points of n variables: all 64 if n is 6 or more.
pub(crate) fn points_mask(n: u8) -> u64
    requires { n ≤ 16 }
    ensures { (b : ℕ) → b < 64 → (bit_at result b == 1) ≡ nat_lt b (2 ^ n) }
{
    if n < 6 {
        (1u64 << (1u32 << n)) - 1
    } else {
        u64::MAX
    }
}

/// The packed tables of m outputs, each of `size` words. Entry [g][p][o] of `groups` is word 32 * g
/// + p in the table of output o. Of each word only the bits of `mask` are kept.
fn lay_out(
    alloc: Global,
    m: u8,
    size: usize,
    mask: u64,
    groups: &[GroupWords],
) -> Result<Vec<u64>, AllocError>
    requires some { 1 ≤ size }
    requires few { size ≤ 1024 }
    requires groups { size ≤ 32 * length groups.now }
    requires outputs { m ≤ 16 }
    ensures long { IfOk result (λ v. length v.items ≡ m * size) }
    ensures words { IfOk result (λ v. (i : ℕ) → i < m * size
        → slice_index v.items i ≡ bit_and (slice_index
        (get_or (get_or groups.now (i % size / 32) []) (i % size % 32) []) (i / size)) mask) }
{
    let mut words = Vec::with_capacity(alloc, m as usize * size)?;
    for i in 0..m as usize * size {
        let place = i % size;
        words.push(groups[place / GROUP_WORDS][place % GROUP_WORDS][i / size] & mask)?;
    }
    Ok(words)
}

/// How many groups a table of `size` words has. The last one may have fewer words.
fn groups_of(size: usize) -> usize
    requires { size ≤ 1024 }
    ensures { result ≡ (size + 31) / 32 }
{
    (size + GROUP_WORDS - 1) / GROUP_WORDS
}

/// How many terms, summed over its groups, a thread has to evaluate to be worth its start.
const TERMS_WORTH_A_THREAD: usize = 8_192;

fn least_groups(terms: usize) -> usize {
    TERMS_WORTH_A_THREAD / terms.max(1)
}

/// The packed truth tables of m outputs over n inputs, one after the other. The threads of `rt`
/// share the work.
pub(crate) fn packed_words<R: Threads + Sync>(
    rt: &R,
    alloc: Global,
    n: u8,
    m: u8,
    terms: &[Term],
) -> Result<Vec<u64>, AllocError>
    requires some_inputs { 1 ≤ n }
    requires few_inputs { n ≤ 16 }
    requires some_outputs { 1 ≤ m }
    requires few_outputs { m ≤ 16 }
    requires fit { All (Fits n m) terms.now }
    ensures packed { IfOk result (λ v. IsPacked n m v.items) }
    ensures tables { IfOk result
        (λ v. tables_of n m v.items ≡ map (table n)
        (product_functions m (map (product_of n m) terms.now))) }
{
    let size = words_per_table(n);
    let groups: Vec<GroupWords> = (0..groups_of(size))
        .into_par_iter()
        .with_min_len(least_groups(terms.len()))
        .map(
            |group: usize| -> GroupWords
                requires { group < 32 }
                ensures { AreGroupWords terms.entry.now group result }
            { group_words(terms, group) },
        )
        .collect(rt, alloc)?;
    let words = lay_out(alloc, m, size, points_mask(n), &groups)?;
    Ok(words)
}

/// The first `count` groups of the packed tables of 16 outputs, made by the calling thread.
fn groups_alone(alloc: Global, terms: &[Term], count: usize) -> Result<Vec<GroupWords>, AllocError>
    requires { count ≤ 32 }
    ensures long { IfOk result (λ v. length v.items ≡ count) }
    ensures words { IfOk result (λ v. (group : ℕ) → group < count →
        AreGroupWords terms.now group (get_or v.items group [])) }
{
    let mut groups = Vec::with_capacity(alloc, count)?;
    for group in 0..count {
        groups.push(group_words(terms, group))?;
    }
    Ok(groups)
}

/// The packed truth tables of a cover's outputs, one after the other, made by the calling thread.
pub fn cover_words(alloc: Global, cover: &Cover) -> Result<Vec<u64>, AllocError>
    ensures packed { IfOk result (λ v. IsPacked cover.now.inputs cover.now.outputs v.items) }
    ensures tables { IfOk result (λ v. AreTablesOf cover.now
        (packed_tables cover.now.inputs cover.now.outputs v.items)) }
{
    let size = words_per_table(cover.inputs());
    let groups = groups_alone(alloc, cover.terms(), groups_of(size))?;
    let words = lay_out(
        alloc,
        cover.outputs(),
        size,
        points_mask(cover.inputs()),
        &groups,
    )?;
    Ok(words)
}
