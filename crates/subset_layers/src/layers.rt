//! Layers of the sets of variables, and their blocks.

ghost use Rattle.std.specs.Prelude.{◌≡◌, ◌+◌, ◌*◌, ◌%◌, ◌^◌, ◌<◌, ◌≤◌, ◌↔◌, map, length, take, slice_get, nat_eq, count_ones, IfOk, IfSome, IsNone, IsFalse};
ghost use Rattle.std.specs.List.{list_any, range_with_len};
ghost use Rattle.definitions.specs.Orders.{has, members};

use crate::selection::Selection;
use order_model::Mask;
use std::alloc::{AllocError, Global};
use std::marker::Model;

/// How many low bytes masks may have: one for each set of the variables 0 to 7.
const LOW_BYTES: usize = 256;

/// The sets of `size` of the variables below `inputs`, as masks in rising order. A block of the
/// layer is the sets whose masks have one low byte.
#[derive(Drop)]
pub struct Layer {
    inputs: u8,
    size: u8,
    /// The masks, rising.
    masks: Selection,
    /// The low bytes of the masks, each once, rising.
    lows: Selection,
}

impl Model for Layer {
    ghost use Rattle.subset_layers.specs.Layers.{LayerOf, AreLayer, layer_with};

    ghost Value = { LayerOf };

    ghost view = { λ l. layer_with l.inputs l.size };

    ghost invariant = { λ l. AreLayer
        (layer_with l.inputs l.size) l.masks.numbers.items l.lows.numbers.items };
}

/// The sets of a layer whose masks have one low byte: the same members among the variables 0 to 7.
#[derive(Drop)]
pub struct Block {
    inputs: u8,
    size: u8,
    /// The low byte that all masks of the block have.
    low: u8,
    /// How many masks the block has.
    count: usize,
    /// The masks, rising, in the first `count` entries.
    masks: [u16; 256],
}

impl Model for Block {
    ghost use Rattle.std.specs.Prelude.{take, ◌≡◌, ◌^◌, ◌<◌, ◌≤◌};
    ghost use Rattle.subset_layers.specs.Layers.{BlockOf, block_of, block_masks};

    ghost Value = { BlockOf };

    ghost view = { λ b. block_of b.inputs b.size b.low };

    ghost invariant = { λ b. (b.count ≤ 256)
        × (take b.count b.masks ≡ block_masks (block_of b.inputs b.size b.low))
        × (b.low < 2 ^ b.inputs) };
}

/// A flag for each set of `inputs` variables: whether that with the mask m has `size` members.
fn size_flags(alloc: Global, inputs: u8, size: u8) -> Result<Vec<bool>, AllocError>
    requires { inputs ≤ 16 }
    ensures { IfOk result
        (λ flags. flags.items ≡ map (λ mask. nat_eq (length (members inputs mask)) size)
        (range_with_len 0 (2 ^ inputs))) }
{
    let mut flags = vec![in alloc; false; 1 << inputs]?;
    for mask in 0..1usize << inputs {
        flags[mask] = mask.count_ones() == size as u32;
    }
    Ok(flags)
}

/// 256 flags: entry k says whether k is the low byte of one of `masks`.
fn low_flags(alloc: Global, masks: &[u16]) -> Result<Vec<bool>, AllocError>
    ensures { IfOk result
        (λ flags. flags.items ≡ map (λ low. list_any (λ mask. nat_eq (mask % 256) low) masks.now)
        (range_with_len 0 256)) }
{
    let mut flags = vec![in alloc; false; LOW_BYTES]?;
    for mask in masks {
        flags[*mask as usize % LOW_BYTES] = true;
    }
    Ok(flags)
}

fn no_masks() -> [u16; 256] {
    [0; 256]
}

impl Layer {
    ghost use Rattle.subset_layers.specs.Layers.{layer_with, masks_of, blocks_of, block_place};

    /// The layer of the sets of `size` members below `inputs`; without sets if `size` exceeds
    /// `inputs`.
    pub fn of(alloc: Global, inputs: u8, size: u8) -> Result<Layer, AllocError>
        requires { inputs ≤ 16 }
        ensures { IfOk result (λ l. l ≡ layer_with inputs size) }
    {
        let flags = size_flags(alloc, inputs, size)?;
        let masks = Selection::of(alloc, &flags)?;
        let low_flags = low_flags(alloc, &masks.numbers)?;
        let lows = Selection::of(alloc, &low_flags)?;
        Ok(Layer {
            inputs,
            size,
            masks,
            lows,
        })
    }

    pub fn try_clone(&self, alloc: Global) -> Result<Layer, AllocError>
        ensures same { IfOk result (λ l. l ≡ self.now) }
        ensures few { IfOk result (λ l. l.inputs ≤ 16) }
    {
        Ok(Layer {
            inputs: self.inputs,
            size: self.size,
            masks: self.masks.try_clone(alloc)?,
            lows: self.lows.try_clone(alloc)?,
        })
    }

    /// The number of the problem's variables.
    pub fn inputs(&self) -> u8
        ensures { result ≡ self.now.inputs }
    {
        self.inputs
    }

    pub fn size(&self) -> u8
        ensures { result ≡ self.now.size }
    {
        self.size
    }

    pub fn len(&self) -> usize
        ensures { result ≡ length (masks_of self.now) }
    {
        self.masks.numbers.len()
    }

    /// The mask at place `i`, counted from 0, by rising mask.
    pub fn mask_at(&self, i: usize) -> Mask
        requires { i < length (masks_of self.now) }
        ensures { slice_get (masks_of self.now) i ≡ Some result }
    {
        self.masks.numbers[i]
    }

    /// The place of `mask` by rising mask. None if the layer doesn't have it.
    pub fn position(&self, mask: Mask) -> Option<usize>
        ensures found { IfSome result (λ i. slice_get (masks_of self.now) i ≡ Some mask) }
        ensures none { IsNone result ↔ IsFalse (has (masks_of self.now) mask) }
    {
        self.masks.position(mask)
    }

    pub fn blocks(&self) -> usize
        ensures { result ≡ length (blocks_of self.now) }
    {
        self.lows.numbers.len()
    }

    /// The place, by rising low byte, of the block that has the mask at place `i` of the layer.
    pub fn block_place(&self, i: usize) -> usize
        requires { i < length (masks_of self.now) }
        ensures place { result ≡ block_place self.now i }
        ensures below { result < length (blocks_of self.now) }
    {
        let low = self.masks.numbers[i] % LOW_BYTES as u16;
        self.lows.places[low as usize] as usize
    }

    /// The block at place `i`, counted from 0, by rising low byte.
    pub fn block(&self, i: usize) -> Block
        requires { i < length (blocks_of self.now) }
        ensures { slice_get (blocks_of self.now) i ≡ Some result }
    {
        Block::with_low(self.inputs, self.size, self.lows.numbers[i])
    }
}

impl Block {
    ghost use Rattle.subset_layers.specs.Layers.{block_of, block_masks};

    /// The block of the sets of `size` members below `inputs` whose masks have the low byte `low`.
    fn with_low(inputs: u8, size: u8, low: u16) -> Block
        requires inputs { inputs ≤ 16 }
        requires low { low < 256 }
        requires below { low < 2 ^ inputs }
        ensures { result ≡ block_of inputs size low }
    {
        let mut masks = no_masks();
        let mut count = 0;
        let highs = ((1usize << inputs) + LOW_BYTES - 1) / LOW_BYTES;
        for high in 0..highs {
            let mask = (high * LOW_BYTES + low as usize) as u16;
            if mask.count_ones() == size as u32 {
                masks[count] = mask;
                count += 1;
            }
        }
        Block {
            inputs,
            size,
            low: low as u8,
            count,
            masks,
        }
    }

    /// The number n of the problem's variables: all masks are below 2^n.
    pub fn inputs(&self) -> u8
        ensures { result ≡ self.now.inputs }
    {
        self.inputs
    }

    /// The low byte that all masks of the block have.
    pub fn low(&self) -> u8
        ensures value { result ≡ self.now.low }
        ensures below { result < 2 ^ self.now.inputs }
    {
        self.low
    }

    /// How many masks the block has.
    pub fn len(&self) -> usize
        ensures value { result ≡ length (block_masks self.now) }
        ensures few { result ≤ 256 }
    {
        self.count
    }

    /// The masks of the block, rising.
    pub fn masks(&self) -> &[Mask]
        ensures { result.now ≡ block_masks self.now }
    {
        &self.masks[..self.count]
    }

    /// The mask at place `i`, counted from 0, of the block's masks in rising order.
    pub fn mask(&self, i: usize) -> Mask
        requires { i < length (block_masks self.now) }
        ensures { slice_get (block_masks self.now) i ≡ Some result }
    {
        self.masks()[i]
    }
}
