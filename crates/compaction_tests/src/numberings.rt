//! Pairs of a table's entries, numbered by first occurrence and by keys.

use pair_numbering::{
    EntryPairs, MaskedPairs, PairKeys, PairMemory, index_entries, label_pairs, number_with_masks,
};
use std::alloc::Global;
use std::process::Abort;

fn numbers_pairs(rt: &impl Abort, alloc: Global) -> bool {
    let numbers = [2, 0, 1, 2, 0, 0, 1, 2, 2, 0, 1, 1];
    let entries = EntryPairs::of_table(&numbers, 1);
    let mut memory = PairMemory::new(alloc);
    let mut found = Vec::new(alloc);
    memory.number(&entries, 3, &mut found).expect(rt, "memory");
    let indexed = index_entries(alloc, &entries).expect(rt, "memory");
    found.as_slice() == [0, 1, 2, 1, 0, 2].as_slice()
        && indexed.numbers.as_slice() == found.as_slice()
        && memory.pairs.as_slice() == [(2, 1), (0, 2), (0, 1)].as_slice()
}

fn have_keys(keys: PairKeys, numbers: &[u32], masks: &[u16]) -> bool {
    keys.numbers.as_slice() == numbers && keys.masks.as_slice() == masks
}

fn labels_strip_pairs(rt: &impl Abort, alloc: Global) -> bool {
    let names = [(0, 1), (1, 1)];
    let mut memory = PairMemory::new(alloc);
    let four = label_pairs(
        &mut memory,
        &MaskedPairs {
            entries: EntryPairs::of_strips(&names, &[0, 1, 2, 0], 1),
            masks: &[1, 2, 4],
            x: 3,
        },
    );
    let is_four = have_keys(four.expect(rt, "memory"), &[0, 1, 2, 3], &[13, 11, 4, 1]);
    let two = label_pairs(
        &mut memory,
        &MaskedPairs {
            entries: EntryPairs::of_strips(&names, &[0, 1, 1, 0], 1),
            masks: &[1, 2],
            x: 3,
        },
    );
    let is_two = have_keys(two.expect(rt, "memory"), &[2, 1, 3, 0], &[1, 11, 11, 2]);
    is_four && is_two
}

fn numbers_distinct_entries(rt: &impl Abort, alloc: Global) -> bool {
    let pairs = MaskedPairs {
        entries: EntryPairs::of_table(&[0, 1, 2, 3], 1),
        masks: &[1, 2, 4, 1],
        x: 3,
    };
    let found = number_with_masks(&mut PairMemory::new(alloc), &pairs).expect(rt, "memory");
    found.numbers.as_slice() == [0, 1].as_slice() && found.masks.as_slice() == [13, 11].as_slice()
}

/// Eighty pairs that are looked for from one slot on, each of them twice. Fewer slots are tried.
fn crowded_pairs() -> [u32; 320] {
    let mut numbers = [0; 320];
    let mut count = 0;
    for upper in 0..1u32 << 17 {
        if count < 80 && u64::from(upper).wrapping_mul(11400714819323198485) >> 54 == 0 {
            numbers[2 * count + 1] = upper;
            numbers[2 * count + 161] = upper;
            count += 1;
        }
    }
    numbers
}

fn count_up_to_eighty(numbers: &[u32]) -> bool {
    for (j, number) in numbers.iter().enumerate() {
        if *number as usize != j % 80 {
            return false;
        }
    }
    true
}

fn numbers_crowded_pairs(rt: &impl Abort, alloc: Global) -> bool {
    let numbers = crowded_pairs();
    assert!(rt; numbers.iter().all(|number| *number < 1 << 17));
    let entries = EntryPairs::of_table(&numbers, 0);
    let mut memory = PairMemory::new(alloc);
    let mut found = Vec::new(alloc);
    memory
        .number(&entries, 1 << 17, &mut found)
        .expect(rt, "memory");
    memory.pairs.len() == 80 && count_up_to_eighty(&found)
}

#[test]
fn pairs_are_numbered_with_their_masks(rt: HostRuntime) {
    assert!(rt; numbers_pairs(&rt, rt.alloc()) && numbers_crowded_pairs(&rt, rt.alloc()));
    assert!(rt; labels_strip_pairs(&rt, rt.alloc()) && numbers_distinct_entries(&rt, rt.alloc()));
}
