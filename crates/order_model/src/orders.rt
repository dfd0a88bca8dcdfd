ghost use Rattle.std.specs.Prelude.{◌≡◌, ◌↔◌, ◌+◌, ◌<◌, ◌≤◌, ℕ, length, swap, IfOk, IfErr, OnOk, IsTrue, IsFalse, List, nat_eq};
ghost use Rattle.std.specs.Bool.{OnTrue};
ghost use Rattle.std.specs.List.{All, IsDistinct};
ghost use Rattle.definitions.specs.Orders.{IsOrder, has, place_in, variables as all_variables};
ghost use Rattle.definitions.specs.OrderFaults.{Accepts, IsInRange, IsNoOrder};

use definitions::{BadOrder, Mask, VarIx, contains};
use std::alloc::{AllocError, Global};
use std::marker::Model;

/// A variable order, top first: each variable from 0 to n-1 once, where n is from 1 to 16.
#[derive(Debug, Drop)]
pub struct Order {
    variables: Vec<VarIx>,
}

impl Model for Order {
    ghost Value = { List ℕ };

    ghost view = { λ o. o.variables.items };

    ghost invariant = { λ o. Accepts o.variables.items };
}

fn is_in_range(variables: &[VarIx]) -> bool
    ensures { IsTrue result ↔ IsInRange variables.now }
{
    let n = variables.len();
    1 <= n && n <= 16 && variables.iter().all(|x| (*x as usize) < n)
}

fn has_repeat(variables: &[VarIx]) -> bool
    requires { All (λ x. x < 16) variables.now }
    ensures repeated { OnTrue result (IsDistinct nat_eq variables.now → ⊥) }
    ensures distinct { IsFalse result → IsDistinct nat_eq variables.now }
{
    let mut seen: Mask = 0;
    for x in variables {
        if contains(seen, *x) {
            return true;
        }
        seen |= 1 << *x;
    }
    false
}

fn place_in_list(variables: &[VarIx], x: VarIx) -> usize
    requires distinct { IsDistinct nat_eq variables.now }
    requires there { IsTrue (has variables.now x) }
    ensures place { result ≡ place_in variables.now x }
    ensures within { result < length variables.now }
{
    for (place, y) in variables.iter().enumerate() {
        if *y == x {
            return place;
        }
    }
    unreachable!()
}

impl Order {
    /// The order with these variables, top first. The error is `OutOfRange` if there are not 1 to
    /// 16 below their number, else `NotEach` if one is repeated, or `OutOfMemory`.
    pub fn try_from_slice(alloc: Global, variables: &[VarIx]) -> Result<Order, BadOrder>
        ensures accepted { OnOk result (Accepts variables.now) }
        ensures value { IfOk result (λ order. order ≡ variables.now) }
        ensures refused { IfErr result (IsNoOrder variables.now) }
    {
        if !is_in_range(variables) {
            return Err(BadOrder::OutOfRange);
        }
        if has_repeat(variables) {
            return Err(BadOrder::NotEach);
        }
        match variables.to_vec(alloc) {
            Ok(variables) => Ok(Order { variables }),
            Err(_) => Err(BadOrder::OutOfMemory),
        }
    }

    /// The order with these variables, top first.
    pub fn from_variables(variables: Vec<VarIx>) -> Order
        requires { Accepts variables.items }
        ensures { result ≡ variables.items }
    {
        Order { variables }
    }

    /// The file order of n variables: 0, 1, .., n-1.
    pub fn file_order(alloc: Global, n: u8) -> Result<Order, AllocError>
        requires some { 1 ≤ n }
        requires few { n ≤ 16 }
        ensures { IfOk result (λ order. order ≡ all_variables n) }
    {
        let mut variables = Vec::with_capacity(alloc, n as usize)?;
        for x in 0..n {
            variables.push(x)?;
        }
        Ok(Order { variables })
    }

    /// The number of variables, 1 to 16.
    pub fn len(&self) -> usize
        ensures value { result ≡ length self.now }
        ensures some { 1 ≤ result }
        ensures few { result ≤ 16 }
    {
        self.variables.len()
    }

    /// The variables, top first.
    pub fn variables(&self) -> &[VarIx]
        ensures value { result.now ≡ self.now }
        ensures order { IsOrder (length self.now) self.now }
        ensures small { All (λ x. x < 16) self.now }
    {
        &self.variables
    }

    /// The place of variable x, counted from 0 at the top.
    pub fn place_of(&self, x: VarIx) -> usize
        requires { x < length self.now }
        ensures place { result ≡ place_in self.now x }
        ensures within { result < length self.now }
    {
        place_in_list(&self.variables, x)
    }

    /// Swaps the variable at place `level`, counted from 0 at the top, and the one just below it.
    pub fn swap(&mut self, level: usize)
        requires { level + 1 < length self.old }
        ensures { self.new ≡ swap self.old level (level + 1) }
    {
        self.variables.swap(level, level + 1);
    }

    /// A copy of the order.
    pub fn try_clone(&self, alloc: Global) -> Result<Order, AllocError>
        ensures { IfOk result (λ order. order ≡ self.now) }
    {
        Ok(Order {
            variables: self.variables.to_vec(alloc)?,
        })
    }
}
