ghost use Rattle.std.specs.Prelude.{◌≡◌, ◌≢◌, ◌≤◌, [], length, IfOk};
ghost use Rattle.minorder_c.specs.Answers.{AllStay, HasCallShape, IsFirstFewestOf, given};
ghost use Rattle.minorder_c.specs.Diagrams.{HasOptimumShape, HoldsOptimum, IsDrawnFor, IsOptimumStatus, IsShortOptimum};
ghost use Rattle.minorder_c.specs.Statuses.{ShowsShape};

use crate::arguments::{GivenTables, has_call_shape};
use crate::exact::optimum;
use crate::rooms::{SHORT_ROOM, put_front};
use crate::status::Refusal;
use order_model::Pairs;
use small_search::Workspace;
use std::alloc::{AllocError, Global};
use truth_table::{DiagramMemory, NumberedNode, make_diagram};

/// Memory for searches and diagrams: each uses again what earlier ones took.
#[derive(Drop)]
pub(crate) struct Memory {
    search: Workspace,
    /// The last diagram that was made.
    pub(crate) diagram: DiagramMemory,
}

impl Memory {
    pub(crate) fn new(alloc: Global) -> Memory {
        Memory {
            search: Workspace::new(alloc),
            diagram: DiagramMemory::new(alloc),
        }
    }
}

/// Writes the first order of the fewest nodes and its level counts, and returns its size. If this
/// is at most `room`, makes the reduced diagram in `memory`. If memory is refused, none of the
/// three has a meaning.
pub(crate) fn find_diagram(
    alloc: Global,
    given: &GivenTables,
    memory: &mut Memory,
    order: &mut [u8],
    levels: &mut [u32],
    room: usize,
) -> Result<u32, AllocError>
    requires { HasCallShape given.now (length order.old) (length levels.old) }
    ensures optimum { IfOk result (IsFirstFewestOf given.now [] order.new levels.new) }
    ensures diagram { IfOk result (λ total. total ≤ room →
        IsDrawnFor given.now order.new total memory.new.diagram.nodes.items
        memory.new.diagram.roots.items) }
    ensures places { length order.new ≡ length order.old }
    ensures counts { length levels.new ≡ length levels.old }
{
    let pairs = Pairs::none(given.inputs as u8);
    let total = optimum(alloc, given, pairs, &mut memory.search, order, levels)?;
    if total as usize <= room {
        memory.diagram.nodes.reserve(total as usize)?;
        let (inputs, outputs) = (given.inputs as u8, given.outputs as u8);
        make_diagram(inputs, outputs, given.words, order, &mut memory.diagram)?;
    }
    Ok(total)
}

/// Writes the first order of the fewest nodes, its level counts and its size, and the reduced
/// diagram under it, as `minorder_diagram_with_lengths` does. Returns 7 if `nodes` is shorter than
/// `total`; then `nodes` and `roots` stay.
#[unsafe(no_mangle)]
pub extern "C" fn minorder_exact_diagram_with_lengths(
    alloc: Global,
    tables: &[u64],
    inputs: u32,
    outputs: u32,
    order: &mut [u8],
    levels: &mut [u32],
    nodes: &mut [NumberedNode],
    roots: &mut [u32],
    total: &mut u32,
) -> u32
    ensures status { IsOptimumStatus result }
    ensures shape { ShowsShape (HasOptimumShape (given tables.entry inputs outputs)
        (length order.old) (length levels.old) (length roots.old)) result }
    ensures written { result ≡ 0 → HoldsOptimum (given tables.entry inputs outputs) order.new
        levels.new nodes.old nodes.new roots.new total.new }
    ensures short { result ≡ 7 → IsShortOptimum (given tables.entry inputs outputs) order.new
        levels.new nodes.old total.new }
    ensures stays { result ≢ 0 → (nodes.new ≡ nodes.old) × (roots.new ≡ roots.old)
        × (result ≢ 7 → AllStay order.old order.new levels.old levels.new total.old total.new) }
{
    let given = GivenTables::of(tables, inputs, outputs);
    if roots.len() != outputs as usize || !has_call_shape(&given, order.len(), levels.len()) {
        return Refusal::Shape.status();
    }
    let mut memory = Memory::new(alloc);
    let mut places = [0; 16];
    let mut counts = [0; 16];
    let (found, _) = places.split_at_mut(order.len());
    let (found_levels, _) = counts.split_at_mut(order.len());
    match find_diagram(alloc, &given, &mut memory, found, found_levels, nodes.len()) {
        Ok(size) => {
            order.copy_from_slice(found);
            levels.copy_from_slice(found_levels);
            *total = size;
            if nodes.len() < size as usize {
                return SHORT_ROOM;
            }
            put_front(nodes, &memory.diagram.nodes);
            roots.copy_from_slice(&memory.diagram.roots);
            0
        }
        Err(_) => Refusal::OutOfMemory.status(),
    }
}
