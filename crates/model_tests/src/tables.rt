//! Values and cofactors of small covers.

use counted_io::Counting;
use order_model::Mask;
use pla_reader::read_cover;
use std::alloc::Global;
use std::process::Abort;
use std::thread::Threads;
use truth_table::Tables;

/// Three products of the variables 0 to 5, in which variable i meets variable i + 3.
static INTERLEAVED: &[u8] = b".i 6\n.o 1\n1--1-- 1\n-1--1- 1\n--1--1 1\n.e\n";

fn tables_of<R: Abort + Threads + Sync>(rt: &R, alloc: Global, text: &[u8]) -> Tables {
    let cover = read_cover(alloc, &mut Counting::new(text)).expect(rt, "a cover");
    Tables::of_cover(rt, alloc, &cover).expect(rt, "memory")
}

/// The variables on which the first output depends if those of `care` are fixed to the bits of
/// `value`.
fn dependence(rt: &impl Abort, alloc: Global, tables: &Tables, care: Mask, value: Mask) -> Mask {
    assert!(rt; tables.problem().outputs() > 0);
    let row = tables.cofactor(alloc, 0, care, value).expect(rt, "memory");
    let mut set: Mask = 0;
    for x in 0..row.inputs() {
        if row.depends(x) {
            set |= 1 << x;
        }
    }
    set
}

#[test]
fn cofactors_depend_on_fewer_variables(rt: HostRuntime) {
    let tables = tables_of(&rt, rt.alloc(), INTERLEAVED);
    // Variable 0 is fixed to 0: variables 0 and 3 don't matter any more.
    assert!(rt; dependence(&rt, rt.alloc(), &tables, 1, 0) == 0b110110);
    // Variables 0 and 3 are fixed to 1: the function is 1.
    assert!(rt; dependence(&rt, rt.alloc(), &tables, 0b1001, 0b1001) == 0);
}

/// The product of variables 5, 6 and 15 of 16, and the complement of variable 9.
static WIDE: &[u8] = b".i 16\n.o 2\n-----11--------1 10\n---------0------ 01\n.e\n";

/// Points, and the values of its outputs.
static VALUES: [(u16, bool, bool); 5] = [
    (0, false, true),
    (0x8060, true, true),
    (0xffff, true, false),
    (0x8040, false, true),
    (0x8220, false, false),
];

fn have_values(tables: &Tables) -> bool {
    let problem = tables.problem();
    if problem.inputs() != 16 || problem.outputs() != 2 {
        return false;
    }
    for (point, first, second) in &VALUES {
        let point = u32::from(*point);
        if tables.value(0, point) != *first || tables.value(1, point) != *second {
            return false;
        }
    }
    true
}

#[test]
fn tables_of_sixteen_variables_have_their_values(rt: HostRuntime) {
    let tables = tables_of(&rt, rt.alloc(), WIDE);
    assert!(rt; have_values(&tables));
    // Where variable 15 is 1 the first function depends on the variables 5 and 6.
    assert!(rt; dependence(&rt, rt.alloc(), &tables, 0x8000, 0x8000) == 0x0060);
}
