ghost use Rattle.std.specs.Prelude.{◌≡◌, ◌^◌, ◌<◌, ◌≤◌, ◌+◌, ◌++◌, ◌∷◌, [], IfOk, OnOk, vec_len, length, slice_index, slice_set};
ghost use Rattle.std.specs.Slots.{slots_len, IsFull};
ghost use Rattle.node_words.specs.Nodes.{IsKnown};
ghost use Rattle.unique_table.specs.Copies.{words_in, HasNodes, AreCopied, Copies};

use crate::page_numbers::Numbers;
use atomic_table::Closed;
use node_words::node_parts;
use order_model::{Node, Ref, VarIx};
use std::alloc::{AllocError, Global};

/// The word of node place `place` of a closed table: 0 if the place is empty.
fn word_at(closed: &Closed<(), Global>, places: usize, place: usize) -> u64
    requires full { IsFull closed.now.words }
    requires places { places ≤ slots_len closed.now.words }
    requires place { place < places }
    ensures { result ≡ slice_index (words_in closed.now places) place }
{
    closed.word(place)
}

/// Appends `node`, the copy of the store's node at `place`, and notes its index plus 1 in
/// `numbers`. After an error `nodes` may have the copy, without a number.
fn add(
    numbers: &mut Numbers,
    nodes: &mut Vec<Node>,
    place: usize,
    node: Node,
) -> Result<Ref, AllocError>
    requires place { place < length numbers.old }
    requires room { vec_len nodes.old < 2 ^ 20 }
    ensures size { length numbers.new ≡ length numbers.old }
    ensures numbers { OnOk result
        (numbers.new ≡ slice_set numbers.old place (length nodes.old.items + 1)) }
    ensures nodes { OnOk result (nodes.new.items ≡ nodes.old.items ++ node ∷ []) }
    ensures made { IfOk result (λ r. r ≡ Ref.Place (length nodes.old.items)) }
{
    let copied = nodes.len();
    nodes.push(node)?;
    numbers.set(place, copied as u32 + 1)?;
    Ok(Ref::Place(copied))
}

/// Copies the nodes that `id` reaches to the end of `nodes`, children first, and returns the ref to
/// the copy of `id`. `numbers` has for each place the index of its copy plus 1, or 0; no node is
/// copied twice. After an error some copies may have been made.
pub(crate) fn copy(
    closed: &Closed<(), Global>,
    places: usize,
    order: &[VarIx],
    numbers: &mut Numbers,
    nodes: &mut Vec<Node>,
    id: u32,
) -> Result<Ref, AllocError>
    requires nodes { HasNodes closed.now places (length order.now) }
    requires size { length numbers.old ≡ places }
    requires known { IsKnown (words_in closed.now places) id }
    requires copied { AreCopied order.now (words_in closed.now places) numbers.old
        nodes.old.items }
    ensures size { length numbers.new ≡ places }
    ensures copies { IfOk result
        (λ r. Copies order.now (words_in closed.now places) numbers.old nodes.old.items
        numbers.new nodes.new.items id r) }
{
    if id < 2 {
        return Ok(Ref::Terminal(id == 1));
    }
    let place = id as usize - 2;
    let number = numbers.get(place);
    if number != 0 {
        return Ok(Ref::Place(number as usize - 1));
    }
    let parts = node_parts(word_at(closed, places, place));
    let low = copy(closed, places, order, numbers, nodes, parts.low)?;
    let high = copy(closed, places, order, numbers, nodes, parts.high)?;
    let node = Node {
        variable: order[usize::from(parts.level)],
        low,
        high,
    };
    let made = add(numbers, nodes, place, node)?;
    Ok(made)
}
