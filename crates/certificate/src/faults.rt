use std::alloc::AllocError;
use thiserror::Error;

/// What is wrong with a line of a certificate.
#[derive(Clone, Copy, Debug, PartialEq, Eq, Error)]
pub enum LineFault {
    /// The text ends before this line, or the line has no line feed.
    #[error("MissingLine")]
    MissingLine,
    /// A fixed word of the line is wrong, or the line has more or fewer words than it should.
    #[error("BadLine")]
    BadLine,
    /// A number isn't written as the format has it, or is out of its bounds.
    #[error("BadNumber")]
    BadNumber,
    /// A pair, or the mask of a listed set, isn't larger than the one on the line before.
    #[error("NotRising")]
    NotRising,
    /// Text follows the last line, `end`. The faulty line is the one after `end`.
    #[error("TrailingText")]
    TrailingText,
}

/// Why a text is not read as a certificate.
#[derive(Clone, Copy, Debug, PartialEq, Eq, Error)]
pub enum CertFault {
    /// The first faulty line, counted from 1, and its fault.
    #[error("line {0}: {1}")]
    Line(usize, LineFault),
    /// The text has more than `MOST_BYTES` bytes.
    #[error("TooLong")]
    TooLong,
    /// An allocation was refused.
    #[error("OutOfMemory")]
    OutOfMemory,
}

impl From<AllocError> for CertFault {
    ghost use Rattle.std.specs.Prelude.{◌≡◌};
    ghost use Rattle.certificate.specs.declared.faults.CertFault.TheVariants.{OutOfMemory};

    ghost from_gives = { λ _ e. e ≡ OutOfMemory };

    fn from(_: AllocError) -> CertFault {
        CertFault::OutOfMemory
    }
}
