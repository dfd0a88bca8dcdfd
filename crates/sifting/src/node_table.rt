ghost use Rattle.std.specs.Prelude.{◌≡◌, [], ◌+◌, ◌*◌, ◌^◌, ◌<◌, ◌≤◌, length, IfOk, IfErr, OnOk, IfSome, IfNone};
ghost use Rattle.sifting.specs.NodeTables.{home_of, HasNumber, IsFree, Finds, IsFreeSlot, IsSet, IsNodeTable, Inserted};

use crate::levels::{Children, Level};
use order_model::HASH_MULTIPLIER;
use std::alloc::{AllocError, Global};
use std::mem;

/// The distinct nodes of a level that is being made, and a hash table that finds a node's number.
/// The memory of earlier levels is used again.
#[derive(Debug, Drop)]
pub(crate) struct NodeTable {
    /// A slot has a node's number plus `base`. A smaller value is left from an earlier level and
    /// counts as free, so that a new level begins without clearing the slots.
    pub slots: Vec<u32>,
    /// The search for a node begins at one of the slots from 0 to `homes`, and goes up from there.
    pub homes: usize,
    /// Larger than all values that earlier levels left in the slots.
    pub base: u32,
    /// The nodes of the level so far: a node's place is its number.
    pub nodes: Vec<Children>,
    pub count: u32,
    /// The list of nodes of an earlier level, whose memory `spare_list` uses.
    pub spare: Vec<Children>,
}

/// The slot, from 0 to `homes` inclusive, at which the search for `node` begins.
#[inline(always)]
fn home(homes: usize, node: Children) -> usize
    requires { homes ≤ 2 ^ 32 }
    ensures place { result ≡ home_of homes node }
    ensures within { result ≤ homes }
{
    let key = (u64::from(node.0) << 20) + u64::from(node.1);
    let high = key.wrapping_mul(HASH_MULTIPLIER) >> 32;
    ((high * homes as u64) >> 32) as usize
}

/// The number of the node in a slot with the value `slot`. None if the slot is free.
#[inline(always)]
fn number_in(slot: u32, base: u32, count: usize) -> Option<usize>
    ensures some { IfSome result (HasNumber base count slot) }
    ensures none { IfNone result (IsFree base count slot) }
{
    let number = slot.checked_sub(base)? as usize;
    if number < count { Some(number) } else { None }
}

/// The number of `node`, by linear probing from slot `home` up. The error is the index of the free
/// slot that ended the search, or the number of slots if none did.
#[inline(always)]
fn find(
    slots: &[u32],
    base: u32,
    nodes: &[Children],
    node: Children,
    home: usize,
) -> Result<u32, usize>
    requires room { base + length nodes.now < 2 ^ 32 }
    requires home { home ≤ length slots.now }
    ensures found { IfOk result (Finds nodes.now node) }
    ensures free { IfErr result (IsFreeSlot slots.now base nodes.now node home) }
{
    for at in home..slots.len() {
        let Some(number) = number_in(slots[at], base, nodes.len()) else {
            return Err(at);
        };
        if nodes[number].0 == node.0 && nodes[number].1 == node.1 {
            return Ok(number as u32);
        }
    }
    Err(slots.len())
}

/// Writes `slot` at index `at`, or appends it if `at` is the number of slots.
fn set_slot(slots: &mut Vec<u32>, at: usize, slot: u32) -> Result<(), AllocError>
    requires { at ≤ length slots.old.items }
    ensures { OnOk result (IsSet slots.old.items slots.new.items at slot) }
{
    if at < slots.len() {
        slots[at] = slot;
        Ok(())
    } else {
        slots.push(slot)?;
        Ok(())
    }
}

impl NodeTable {
    /// A table without nodes and slots, which takes no memory.
    pub fn new(alloc: Global) -> NodeTable {
        NodeTable {
            slots: Vec::new(alloc),
            homes: 0,
            base: 1,
            nodes: Vec::new(alloc),
            count: 0,
            spare: Vec::new(alloc),
        }
    }

    /// Takes over the memory of the nodes of two levels, for levels to come. Not to be called
    /// between `begin` and `finish`, because it replaces the table's nodes.
    pub fn reuse(&mut self, upper: Level, lower: Level) {
        self.spare = upper.nodes;
        self.nodes = lower.nodes;
    }

    /// An empty list with room for `most` nodes, in memory that `reuse` took over, as far as it
    /// goes.
    pub fn spare_list(&mut self, alloc: Global, most: usize) -> Result<Vec<Children>, AllocError>
        ensures { IfOk result (λ v. v.items ≡ []) }
    {
        let mut list = mem::replace(&mut self.spare, Vec::new(alloc));
        list.clear();
        list.reserve(most)?;
        Ok(list)
    }

    /// Begins a level of at most `most` nodes, with all slots free. After an error no level is
    /// begun.
    pub fn begin(&mut self, most: usize) -> Result<(), AllocError>
        requires { 2 * most ≤ 2 ^ 32 }
        ensures table { OnOk result (IsNodeTable self.new) }
        ensures empty { OnOk result (self.new.nodes.items ≡ []) }
        ensures room { OnOk result (self.new.base + most < 2 ^ 32) }
    {
        if self.base as usize + most > u32::MAX as usize {
            self.slots.fill(0);
            self.base = 1;
        }
        self.homes = 2 * most;
        if self.slots.len() < self.homes {
            self.slots.resize(self.homes, 0)?;
        }
        self.nodes.clear();
        self.count = 0;
        Ok(())
    }

    /// The number of `node` in the level that was begun, where it is added if it is new. After an
    /// error a level has to be begun anew.
    #[inline(always)]
    pub fn number_of(&mut self, node: Children) -> Result<u32, AllocError>
        requires table { IsNodeTable self.old }
        requires room { self.old.base + length self.old.nodes.items + 1 < 2 ^ 32 }
        ensures table { OnOk result (IsNodeTable self.new) }
        ensures inserted { IfOk result
            (Inserted (0, 0) self.old.nodes.items self.new.nodes.items node) }
        ensures base { OnOk result (self.new.base ≡ self.old.base) }
    {
        let from = home(self.homes, node);
        let at = match find(&self.slots, self.base, &self.nodes, node, from) {
            Ok(number) => return Ok(number),
            Err(at) => at,
        };
        let number = self.nodes.len() as u32;
        set_slot(&mut self.slots, at, self.base + number)?;
        self.nodes.push(node)?;
        self.count += u32::from(node.0 != node.1);
        Ok(number)
    }

    /// Takes the level out of the table, whose slots are then free.
    pub fn finish(&mut self, alloc: Global) -> Level
        requires table { IsNodeTable self.old }
        requires room { self.old.base + length self.old.nodes.items < 2 ^ 32 }
        ensures { result.nodes.items ≡ self.old.nodes.items }
    {
        let nodes = mem::replace(&mut self.nodes, Vec::new(alloc));
        self.base += nodes.len() as u32;
        Level {
            nodes,
            count: self.count,
        }
    }
}
