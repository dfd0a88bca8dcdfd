//! Certificates of the conjunction of sixteen variables that list all sets.

use cert_check::{Reason, Verdict, check};
use certificate::Certificate;
use counted_io::Counting;
use order_model::{ListedCell, Mask};
use pla_reader::read_cover;
use std::alloc::Global;
use std::process::Abort;
use std::thread::Threads;
use truth_table::Tables;

static SIXTEEN_ONES: &[u8] = b".i 16\n.o 1\n1111111111111111 1\n.e\n";

pub(crate) fn tables_of<R: Abort + Threads + Sync>(rt: &R, alloc: Global, text: &[u8]) -> Tables {
    let cover = read_cover(alloc, &mut Counting::new(text)).expect(rt, "a cover");
    Tables::of_cover(rt, alloc, &cover).expect(rt, "memory")
}

/// Costs of sets: that of the empty one, and of any other one a number for each member and a
/// further one.
#[derive(Drop)]
struct Costs {
    start: u32,
    each: u32,
    more: u32,
}

fn cost_of(costs: &Costs, mask: Mask) -> u32 {
    if mask == 0 {
        costs.start
    } else {
        costs
            .each
            .saturating_mul(mask.count_ones())
            .saturating_add(costs.more)
    }
}

/// The costs of the proper subsets of sixteen variables.
fn subsets(rt: &impl Abort, alloc: Global, costs: &Costs) -> Vec<ListedCell> {
    let mut cells = Vec::with_capacity(alloc, 65_535).expect(rt, "memory");
    for mask in 0..Mask::MAX {
        let cost = cost_of(costs, mask);
        cells.push(ListedCell { mask, cost }).expect(rt, "memory");
    }
    cells
}

/// The certificate of the file order, one node on each level, with these costs.
fn certificate_of(rt: &impl Abort, alloc: Global, costs: &Costs) -> Certificate {
    let order = [0u8, 1, 2, 3, 4, 5, 6, 7, 8, 9, 10, 11, 12, 13, 14, 15].to_vec(alloc);
    let levels = [1u32; 16].to_vec(alloc);
    Certificate::new(
        16,
        1,
        order.expect(rt, "memory"),
        levels.expect(rt, "memory"),
        16,
        subsets(rt, alloc, costs),
    )
    .expect(rt, "a spelling")
}

fn verdict_on<R: Abort + Threads + Sync>(
    rt: &R,
    alloc: Global,
    tables: &Tables,
    costs: &Costs,
) -> Verdict {
    check(rt, alloc, tables, &certificate_of(rt, alloc, costs)).expect(rt, "memory")
}

/// Costs of sets, and the verdict.
static CASES: [(Costs, Verdict); 5] = [
    (
        Costs {
            start: 0,
            each: 1,
            more: 0,
        },
        Verdict::Valid,
    ),
    (
        Costs {
            start: 0,
            each: 0,
            more: 0,
        },
        Verdict::Invalid(Reason::Edge {
            mask: 0x7fff,
            x: 15,
        }),
    ),
    (
        Costs {
            start: 0,
            each: 1,
            more: 1,
        },
        Verdict::Invalid(Reason::Edge { mask: 0, x: 0 }),
    ),
    (
        Costs {
            start: 0,
            each: 0,
            more: 999_999,
        },
        Verdict::Invalid(Reason::CellTooBig),
    ),
    (
        Costs {
            start: 999_999,
            each: 0,
            more: 999_999,
        },
        Verdict::Invalid(Reason::Start),
    ),
];

#[test]
fn judges_all_sets_of_sixteen_variables(rt: HostRuntime) {
    let tables = tables_of(&rt, rt.alloc(), SIXTEEN_ONES);
    for (costs, verdict) in &CASES {
        assert!(rt; verdict_on(&rt, rt.alloc(), &tables, costs) == *verdict);
    }
}
