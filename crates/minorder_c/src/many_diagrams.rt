//! The orders of the fewest nodes of many problems, and the reduced diagrams under them, by one
//! call.

ghost use Rattle.std.specs.Prelude.{◌≡◌, ◌≢◌, ◌*◌, length, IfOk, OnOk};
ghost use Rattle.minorder_c.specs.Answers.{AreTables, ListsStay, given};
ghost use Rattle.minorder_c.specs.Diagrams.{IsOptimumStatus};
ghost use Rattle.minorder_c.specs.Many.{AreDrawn, AreShortOptima, HasManyDiagramShape, HasManyShape, HoldOptima, IsPutDrawn};
ghost use Rattle.minorder_c.specs.Statuses.{ShowsShape};

use crate::arguments::GivenTables;
use crate::exact_diagram::{Memory, find_diagram};
use crate::many::{Answers, is_length, is_shape};
use crate::rooms::{SHORT_ROOM, put_front};
use crate::status::Refusal;
use order_model::packed::{block, words_per_table};
use std::alloc::{AllocError, Global};
use truth_table::NumberedNode;

/// The answers for many problems, with diagrams, one problem after the other.
#[derive(Drop)]
struct DrawnAnswers {
    answers: Answers,
    /// The nodes of the reduced diagrams, lowest first.
    nodes: Vec<NumberedNode>,
    /// The number of each output's root, among the nodes of its problem.
    roots: Vec<u32>,
}

/// Appends the answer and the diagram for one problem. If memory is refused, only a part may be
/// appended.
fn put_drawn(
    alloc: Global,
    given: &GivenTables,
    memory: &mut Memory,
    drawn: &mut DrawnAnswers,
) -> Result<(), AllocError>
    requires { AreTables given.now }
    ensures { OnOk result
        (IsPutDrawn given.now drawn.old.answers.orders.items drawn.new.answers.orders.items
        drawn.old.answers.levels.items drawn.new.answers.levels.items
        drawn.old.answers.totals.items drawn.new.answers.totals.items drawn.old.nodes.items
        drawn.new.nodes.items drawn.old.roots.items drawn.new.roots.items) }
{
    let n = given.inputs as usize;
    let mut places = [0; 16];
    let (order, _) = places.split_at_mut(n);
    let mut counts = [0; 16];
    let (levels, _) = counts.split_at_mut(n);
    let total = find_diagram(alloc, given, memory, order, levels, usize::MAX)?;
    drawn.answers.push(order, levels, total)?;
    drawn.nodes.extend_from_slice(&memory.diagram.nodes)?;
    drawn.roots.extend_from_slice(&memory.diagram.roots)?;
    Ok(())
}

/// The answers and diagrams for `many` problems.
fn drawn_of(alloc: Global, given: &GivenTables, many: usize) -> Result<DrawnAnswers, AllocError>
    requires { HasManyShape given.now (many * given.now.inputs) (many * given.now.inputs) many }
    ensures { IfOk result
        (λ d. AreDrawn given.now many d.answers.orders.items d.answers.levels.items
        d.answers.totals.items d.nodes.items d.roots.items) }
{
    let size = given.outputs as usize * words_per_table(given.inputs as u8);
    let mut drawn = DrawnAnswers {
        answers: Answers::new(alloc),
        nodes: Vec::new(alloc),
        roots: Vec::new(alloc),
    };
    let mut memory = Memory::new(alloc);
    for i in 0..many {
        let words = block(given.words, size, i);
        put_drawn(
            alloc,
            &GivenTables { words, ..*given },
            &mut memory,
            &mut drawn,
        )?;
    }
    Ok(drawn)
}

/// Writes what `minorder_exact_many_with_lengths` does, and the reduced diagram of each problem,
/// numbered as by `minorder_diagram_with_lengths`. The rest of `nodes` stays. Returns 7 if `nodes`
/// is shorter than the sum of the sizes; then `nodes` and `roots` stay.
#[unsafe(no_mangle)]
pub extern "C" fn minorder_exact_diagram_many_with_lengths(
    alloc: Global,
    tables: &[u64],
    inputs: u32,
    outputs: u32,
    totals: &mut [u32],
    orders: &mut [u8],
    levels: &mut [u32],
    nodes: &mut [NumberedNode],
    roots: &mut [u32],
) -> u32
    ensures status { IsOptimumStatus result }
    ensures shape { ShowsShape (HasManyDiagramShape (given tables.entry inputs outputs)
        (length orders.old) (length levels.old) (length roots.old) (length totals.old)) result }
    ensures written { result ≡ 0 → HoldOptima (given tables.entry inputs outputs) orders.new
        levels.new nodes.old nodes.new roots.new totals.new }
    ensures short { result ≡ 7 → AreShortOptima (given tables.entry inputs outputs) orders.new
        levels.new nodes.old totals.new }
    ensures stays { result ≢ 0 → (nodes.new ≡ nodes.old) × (roots.new ≡ roots.old) × (result ≢ 7 →
        ListsStay orders.old orders.new levels.old levels.new totals.old totals.new) }
{
    let given = GivenTables::of(tables, inputs, outputs);
    let many = totals.len();
    if !is_shape(&given, orders.len(), levels.len(), many)
        || !is_length(roots.len(), many, outputs as usize)
    {
        return Refusal::Shape.status();
    }
    match drawn_of(alloc, &given, many) {
        Ok(found) => {
            found.answers.write(orders, levels, totals);
            if nodes.len() < found.nodes.len() {
                return SHORT_ROOM;
            }
            put_front(nodes, &found.nodes);
            roots.copy_from_slice(&found.roots);
            0
        }
        Err(_) => Refusal::OutOfMemory.status(),
    }
}
