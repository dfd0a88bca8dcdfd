ghost use Rattle.std.specs.Prelude.{◌≡◌, ◌==◌, ◌↔◌, ◌^◌, ◌<◌, ◌≤◌, ℕ, List, Option, Some, [], length, position, IsTrue, IfSome, IfNone, IfOk};
ghost use Rattle.std.specs.Int.{bit_at};
ghost use Rattle.definitions.specs.Orders.{has, members};
ghost use Rattle.definitions.specs.Pairs.{AreBelow, Pair, has_pair, keeps, is_lawful, tops, sorted_pairs, IsFirstOrder, IsPairCycle};
ghost use Rattle.definitions.specs.KeptPairs.{pairs_in, AreWithin, IsJoined, CanBeKept, HasNoCycle};
ghost use Rattle.definitions.specs.PairTexts.{variable_of, pair_of, listed, AreMasksOf, ParsesAs};

use crate::orders::Order;
use definitions::{Mask, PairsFault, VarIx, contains};
use std::alloc::{AllocError, Global};
use std::marker::Model;

/// Pairs (a, b) of variables. An order keeps them if each a stands above its b, as some order does.
#[derive(Debug, Drop)]
pub struct Pairs {
    inputs: u8,
    // bit b of below[a] stands for the pair (a, b)
    below: [Mask; 16],
}

impl Model for Pairs {
    ghost use Rattle.definitions.specs.KeptPairs.{KeptPairs, pairs_in, HoldsKept};

    ghost Value = { KeptPairs };

    ghost view = { λ p. record { inputs = p.inputs; pairs = pairs_in p.inputs p.below } };

    ghost invariant = { λ p. HoldsKept p.inputs p.below };
}

/// The variable that `word` states: a decimal from 0 to 15 without leading zeros.
fn number(word: &[u8]) -> Option<VarIx>
    ensures { result ≡ variable_of word.now }
{
    match word {
        [digit @ b'0'..=b'9'] => Some(*digit - b'0'),
        [b'1', digit @ b'0'..=b'5'] => Some(10 + (*digit - b'0')),
        _ => None,
    }
}

fn comma_place(part: &[u8]) -> Option<usize>
    ensures first { result ≡ position (λ byte. byte == 44) part.now }
    ensures within { IfSome result (λ place. place < length part.now) }
{
    part.iter().position(|byte| *byte == b',')
}

/// The pair (a, b) that `part` states as `a,b`.
fn pair(part: &[u8]) -> Option<(VarIx, VarIx)>
    ensures { result ≡ pair_of part.now }
{
    let comma = comma_place(part)?;
    let above = number(&part[..comma])?;
    let below = number(&part[comma + 1..])?;
    Some((above, below))
}

/// The pairs that a text such as `2,0:1,0` lists, as masks: bit b of entry a stands for (a, b).
fn listed_masks(text: &[u8]) -> Option<[Mask; 16]>
    ensures { AreMasksOf (listed text.now) result }
{
    let mut below = [0; 16];
    for part in text.split(|byte| *byte == b':') {
        let (a, b) = pair(part)?;
        below[a as usize] |= 1 << b;
    }
    Some(below)
}

/// Whether all variables of the pairs are below n.
fn are_within(below: &[Mask; 16], n: u8) -> bool
    requires { n ≤ 16 }
    ensures { IsTrue result ↔ AreWithin n below.now }
{
    for (a, mask) in below.iter().enumerate() {
        let limit: u32 = if a < n as usize { 1 << n } else { 1 };
        if u32::from(*mask) >= limit {
            return false;
        }
    }
    true
}

/// One step of Warshall's transitive closure: each a that reaches k reaches all that k reaches.
fn join_through(reached: &mut [Mask; 16], k: VarIx)
    requires { k < 16 }
    ensures { IsJoined reached.old k reached.new }
{
    let through = reached[k as usize];
    for mask in reached.iter_mut() {
        if contains(*mask, k) {
            *mask |= through;
        }
    }
}

/// The smallest variable from which one or more pairs lead back to it.
fn least_on_cycle(below: &[Mask; 16]) -> Option<VarIx>
    ensures found { IfSome result (λ v. IsPairCycle (pairs_in 16 below.now) v) }
    ensures none { IfNone result (HasNoCycle (pairs_in 16 below.now)) }
{
    let mut reached = *below;
    for k in 0..16 {
        join_through(&mut reached, k);
    }
    for v in 0..16 {
        if contains(reached[v as usize], v) {
            return Some(v);
        }
    }
    None
}

/// `pairs` as masks. None if a variable is 16 or more.
fn masks_of(pairs: &[(VarIx, VarIx)]) -> Option<[Mask; 16]>
    ensures some { IfSome result (λ below. AreMasksOf (Some pairs.now) (Some below)) }
    ensures none { IfNone result (AreBelow 16 pairs.now → ⊥) }
{
    let mut below = [0; 16];
    for i in 0..pairs.len() {
        let (a, b) = pairs[i];
        if a >= 16 || b >= 16 {
            return None;
        }
        below[a as usize] |= 1 << b;
    }
    Some(below)
}

/// The pairs that `below` has. The error is `PairOutOfRange` or `PairCycle`.
fn of_masks(below: [Mask; 16], n: u8) -> Result<Pairs, PairsFault>
    requires some { 1 ≤ n }
    requires few { n ≤ 16 }
    ensures { (P : Option (List Pair)) → AreMasksOf P (Some below) → ParsesAs P n result }
{
    if !are_within(&below, n) {
        return Err(PairsFault::PairOutOfRange);
    }
    match least_on_cycle(&below) {
        Some(v) => Err(PairsFault::PairCycle(v)),
        None => Ok(Pairs { inputs: n, below }),
    }
}

impl Pairs {
    /// No pairs of n variables, so that every order keeps them.
    pub fn none(n: u8) -> Pairs
        requires some { 1 ≤ n }
        requires few { n ≤ 16 }
        ensures inputs { result.inputs ≡ n }
        ensures pairs { result.pairs ≡ [] }
    {
        Pairs {
            inputs: n,
            below: [0; 16],
        }
    }

    /// The pairs of n variables that a text such as `2,0:1,0` lists, here (2, 0) and (1, 0).
    /// Duplicates are ignored.
    pub fn parse(text: &[u8], n: u8) -> Result<Pairs, PairsFault>
        requires some { 1 ≤ n }
        requires few { n ≤ 16 }
        ensures { ParsesAs (listed text.now) n result }
    {
        let Some(below) = listed_masks(text) else {
            return Err(PairsFault::BadPair);
        };
        of_masks(below, n)
    }

    /// The pairs (a, b) of n variables that `pairs` lists in any arrangement. Duplicates are
    /// ignored.
    pub fn of(pairs: &[(VarIx, VarIx)], n: u8) -> Result<Pairs, PairsFault>
        requires some { 1 ≤ n }
        requires few { n ≤ 16 }
        ensures { ParsesAs (Some pairs.now) n result }
    {
        let Some(below) = masks_of(pairs) else {
            return Err(PairsFault::PairOutOfRange);
        };
        of_masks(below, n)
    }

    /// The number of variables, 1 to 16.
    pub fn inputs(&self) -> u8
        ensures value { result ≡ self.now.inputs }
        ensures kept { CanBeKept self.now.inputs self.now.pairs }
        ensures sorted { sorted_pairs self.now.inputs self.now.pairs ≡ self.now.pairs }
    {
        self.inputs
    }

    /// How many pairs there are, at most 240.
    pub fn count(&self) -> u32
        ensures value { result ≡ length self.now.pairs }
        ensures most { result ≤ 240 }
    {
        let mut count = 0;
        for a in 0..self.inputs {
            count += self.below[a as usize].count_ones();
        }
        count
    }

    /// The variables that must stand below variable a.
    pub fn below(&self, a: VarIx) -> Mask
        requires { a < self.now.inputs }
        ensures pairs { (b : ℕ) → (bit_at result b ≡ 1) ↔ IsTrue (has_pair self.now.pairs a b) }
        ensures within { result < 2 ^ self.now.inputs }
    {
        self.below[a as usize]
    }

    /// The pairs (a, b), by rising a and then rising b.
    pub fn to_vec(&self, alloc: Global) -> Result<Vec<(VarIx, VarIx)>, AllocError>
        ensures { IfOk result (λ pairs. pairs.items ≡ self.now.pairs) }
    {
        let mut pairs = Vec::new(alloc);
        for a in 0..self.inputs {
            let mask = self.below[a as usize];
            for b in 0..self.inputs {
                if contains(mask, b) {
                    pairs.push((a, b))?;
                }
            }
        }
        Ok(pairs)
    }

    /// Whether `order` keeps the pairs.
    pub fn keeps(&self, order: &Order) -> bool
        requires { length order.now ≡ self.now.inputs }
        ensures { result ≡ keeps self.now.pairs order.now }
    {
        let mut seen: Mask = 0;
        for x in order.variables() {
            if self.below[*x as usize] & seen != 0 {
                return false;
            }
            seen |= 1 << *x;
        }
        true
    }

    /// Whether `set` is lawful, that is downward closed: with a it contains b, for each pair (a,
    /// b).
    pub fn lawful(&self, set: Mask) -> bool
        ensures { result ≡ is_lawful self.now.pairs (members self.now.inputs set) }
    {
        for (a, below) in self.below.iter().enumerate() {
            if *below & !set != 0 && contains(set, a as VarIx) {
                return false;
            }
        }
        true
    }

    fn smallest_top(&self, set: Mask) -> VarIx
        requires some { 0 < set }
        requires within { set < 2 ^ self.now.inputs }
        requires lawful { IsTrue (is_lawful self.now.pairs (members self.now.inputs set)) }
        ensures top { IsTrue (has (tops self.now.pairs (members self.now.inputs set)) result) }
        ensures smallest { (y : ℕ) →
            IsTrue (has (tops self.now.pairs (members self.now.inputs set)) y) → result ≤ y }
    {
        for x in 0..self.inputs {
            if contains(set, x) && self.lawful(set - (1 << x)) {
                return x;
            }
        }
        unreachable!()
    }

    /// The lexicographically first of the orders that keep the pairs.
    pub fn first_order(&self, alloc: Global) -> Result<Order, AllocError>
        ensures { IfOk result (λ order. IsFirstOrder self.now.inputs self.now.pairs order) }
    {
        let n = self.inputs;
        let mut variables: [VarIx; 16] = [0; 16];
        let mut remaining = Mask::MAX >> (16 - n);
        for place in 0..n {
            let x = self.smallest_top(remaining);
            variables[place as usize] = x;
            remaining -= 1 << x;
        }
        let variables = variables[..n as usize].to_vec(alloc)?;
        Ok(Order::from_variables(variables))
    }

    /// A copy of the pairs.
    pub fn copied(&self) -> Pairs
        ensures { result ≡ self.now }
    {
        Pairs {
            inputs: self.inputs,
            below: self.below,
        }
    }
}
