use crate::variables::VarIx;
use thiserror::Error;

/// Why a list of variables is no order.
#[derive(Clone, Copy, Debug, PartialEq, Eq, Error)]
pub enum BadOrder {
    /// A variable occurs more than once, so that another one is missing.
    #[error("NotEach")]
    NotEach,
    /// The list is empty or has more than 16 entries, or a variable in it isn't below its length.
    #[error("OutOfRange")]
    OutOfRange,
    /// An allocation was refused.
    #[error("OutOfMemory")]
    OutOfMemory,
}

/// Why pairs (a, b), where a must stand above b, are refused: the first of these faults.
#[derive(Clone, Copy, Debug, PartialEq, Eq, Error)]
pub enum PairsFault {
    /// A part of a text such as `2,0:1,0` isn't two decimals from 0 to 15 with a comma between
    /// them.
    #[error("BadPair")]
    BadPair,
    /// A variable of a pair isn't below the number of variables.
    #[error("PairOutOfRange")]
    PairOutOfRange,
    /// The smallest variable from which the pairs lead back to itself, as from 0 in `0,1:1,0`.
    #[error("PairCycle {0}")]
    PairCycle(VarIx),
}
