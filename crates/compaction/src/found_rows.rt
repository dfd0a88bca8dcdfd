//! Finds the rows that are requested, low byte by low byte, by one thread or several.

ghost use Rattle.std.specs.Prelude.{All, IfOk};
ghost use Rattle.compaction.specs.Rows.{HoldsRows};

use crate::high_walk::{ByteRows, walked_rows};
use crate::requests::Requests;
use crate::shared_tables::SharedTables;
use order_model::Workers;
use pair_numbering::PairMemory;
use std::alloc::{AllocError, Global};
use std::sync::atomic::{AtomicU64, Ordering};
use std::thread;
use std::thread::Threads;

/// The low bytes, which threads take one after another: those with the largest tables first.
#[derive(Drop)]
pub(crate) struct Turns {
    /// All low bytes, in the order in which they are taken.
    bytes: [u8; 256],
    /// How often a thread came for a byte.
    taken: AtomicU64,
}

impl Turns {
    /// All 256 low bytes, none of them taken: those with fewer variables come first.
    pub(crate) fn new() -> Turns {
        let mut bytes = [0; 256];
        let mut count = 0usize;
        for size in 0..9u32 {
            for byte in 0..256u16 {
                if byte.count_ones() == size && count < 256 {
                    bytes[count] = byte as u8;
                    count += 1;
                }
            }
        }
        Turns {
            bytes,
            taken: AtomicU64::new(0),
        }
    }

    /// The next low byte; None if all are taken.
    fn next(&self) -> Option<u8> {
        let turn = self.taken.fetch_add(1, Ordering::SeqCst);
        self.bytes.get(turn as usize).copied()
    }
}

impl<'a> SharedTables<'a> {
    /// Takes low bytes from `turns` until none is left, and finds the rows that are requested for
    /// each.
    pub(crate) fn rows_by_turns(
        &self,
        alloc: Global,
        requests: &Requests,
        turns: &Turns,
    ) -> Result<Vec<ByteRows>, AllocError>
        ensures { IfOk result (λ found. All (HoldsRows self.now) found.items) }
    {
        let mut found = Vec::new(alloc);
        let inputs = self.problem().inputs();
        let mut memory = PairMemory::new(alloc);
        for _turn in 0..256u32 {
            let Some(low) = turns.next() else {
                break;
            };
            if let Some(request) = requests.of_byte(low)
                && request.inputs == inputs
            {
                let (byte, _) = walked_rows(&mut memory, self, request.try_clone(alloc)?)?;
                found.push(byte)?;
            }
        }
        Ok(found)
    }

    /// Finds all rows in `requests`, by the threads of `workers` workers.
    pub(crate) fn rows_by_workers<R: Threads + Sync>(
        &self,
        rt: &R,
        alloc: Global,
        requests: &Requests,
        workers: Workers,
    ) -> Result<Vec<ByteRows>, AllocError>
        ensures { IfOk result (λ found. All (HoldsRows self.now) found.items) }
    {
        let turns = Turns::new();
        let mut parts = thread::map_indices(
            rt,
            alloc,
            usize::from(workers.count()),
            &|_worker: usize| -> Result<Vec<ByteRows>, AllocError>
                ensures { IfOk result (λ found. All (HoldsRows self.entry.now) found.items) }
            { self.rows_by_turns(alloc, requests, &turns) },
        )?;
        let mut found = Vec::new(alloc);
        while let Some(part) = parts.pop() {
            found.append(&mut part?)?;
        }
        Ok(found)
    }
}
