//! The words of nodes and of cache entries, and the search for a node's place.

ghost use Rattle.std.specs.Prelude.{◌≡◌, ℕ, ◌+◌, ◌-◌, ◌*◌, ◌^◌, ◌<◌};
ghost use Rattle.node_words.specs.Nodes.{node_word, home, probe, level_of, low_of, high_of};
ghost use Rattle.node_words.specs.Entries.{code_of};

use crate::operation::Operation;
use definitions::HASH_MULTIPLIER;

/// A node: its level, from 0 at the top, and the ids of its children. Ids 0 and 1 are the
/// terminals, and the node at place p of the store has the id p + 2.
#[derive(Clone, Copy, Debug, PartialEq, Eq)]
pub struct NodeParts {
    pub level: u8,
    pub low: u32,
    pub high: u32,
}

/// The word of a node: 1 in bit 44, the level from bit 40 on, the low child's id from bit 20 on,
/// the high child's in the lowest 20 bits.
pub fn node_word(level: u8, low: u32, high: u32) -> u64
    requires level { level < 16 }
    requires low { low < 2 ^ 20 }
    requires high { high < 2 ^ 20 }
    ensures { result ≡ node_word level low high }
{
    (1 << 44) + (u64::from(level) << 40) + (u64::from(low) << 20) + u64::from(high)
}

/// Unpacks the word of a node. Other bits of any word are ignored.
pub fn node_parts(word: u64) -> NodeParts
    ensures level { result.level ≡ level_of word }
    ensures low { result.low ≡ low_of word }
    ensures high { result.high ≡ high_of word }
{
    NodeParts {
        level: ((word >> 40) % 16) as u8,
        low: ((word >> 20) % (1 << 20)) as u32,
        high: (word % (1 << 20)) as u32,
    }
}

/// The place at which the search for the node word `word` starts: a hash of the word.
pub fn start(places: usize, word: u64) -> usize
    requires some { 0 < places }
    requires few { places < 2 ^ 32 }
    ensures is { result ≡ home places word }
    ensures within { result < places }
{
    let first = (word ^ (word >> 32)).wrapping_mul(HASH_MULTIPLIER);
    let second = (first ^ (first >> 29)).wrapping_mul(13787848793156543929);
    (((second >> 32) * places as u64) >> 32) as usize
}

/// The place that a search comes to after `passed` places from place `start` on.
pub fn probe(start: usize, passed: usize, places: usize) -> usize
    requires start { start < places }
    requires passed { passed < places }
    ensures is { (word : ℕ) → start ≡ home places word → result ≡ probe places word passed }
    ensures within { result < places }
{
    if passed < places - start {
        start + passed
    } else {
        passed - (places - start)
    }
}

/// The key of a cache entry: the operation's code (1 for And, 2 for Or, 3 for Xor) from bit 40 on,
/// `first` from bit 20 on, `second` below. The entry's word is `key << 20` plus the id of the
/// result.
pub fn entry_key(operation: Operation, first: u32, second: u32) -> u64
    requires first { first < 2 ^ 20 }
    requires second { second < 2 ^ 20 }
    ensures { result ≡ code_of operation * 2 ^ 40 + first * 2 ^ 20 + second }
{
    let code: u64 = match operation {
        Operation::And => 1,
        Operation::Or => 2,
        Operation::Xor => 3,
    };
    (code << 40) + (u64::from(first) << 20) + u64::from(second)
}
