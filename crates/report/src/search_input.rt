//! What a run searches, and how.

ghost use Rattle.std.specs.Prelude.{◌≡◌};
ghost use Rattle.truth_table.specs.OfCovers.{AreTablesOf};

use order_model::{Pairs, Workers};
use pla_reader::Cover;
use truth_table::Tables;

/// What a run searches, and how.
#[derive(Drop)]
pub(crate) struct SearchInput<'a> {
    /// The cover whose functions are searched.
    pub cover: &'a Cover,
    /// The truth tables of the cover.
    pub tables: &'a Tables,
    /// The pairs that the order has to keep.
    pub pairs: &'a Pairs,
    /// Whether the run makes a certificate.
    pub certify: bool,
    /// How many workers the run may keep busy.
    pub workers: Workers,
    pub ghost are_its_tables: { AreTablesOf cover.now tables.now },
    pub ghost are_its_pairs: { pairs.now.inputs ≡ cover.now.inputs },
}

/// The fewest entries of truth tables, of all outputs together, that are worth threads.
const ENTRIES_WORTH_THREADS: usize = 1 << 14;

impl SearchInput<'_> {
    /// The workers that build diagrams and prepare the search: one if the truth tables have fewer
    /// than `ENTRIES_WORTH_THREADS` entries.
    pub(crate) fn busy_workers(&self) -> Workers {
        let problem = self.tables.problem();
        let entries = usize::from(problem.outputs()) << problem.inputs();
        match Workers::new(1) {
            Some(one) if entries < ENTRIES_WORTH_THREADS => one,
            _ => self.workers,
        }
    }
}
