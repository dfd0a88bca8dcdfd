use std::alloc::AllocError;
use thiserror::Error;

/// What is wrong with a line of a PLA description.
#[derive(Clone, Copy, Debug, PartialEq, Eq, Error)]
pub enum LineFault {
    /// A term or names stand before the numbers of inputs and outputs, or these are missing.
    #[error("MissingHead")]
    MissingHead,
    /// A directive that may occur only once comes again: `.i`, `.o`, `.ilb`, `.ob` or `.type`.
    #[error("RepeatedHead")]
    RepeatedHead,
    /// The number of inputs isn't 1 to 16.
    #[error("InputCount")]
    InputCount,
    /// The number of outputs isn't 1 to 16.
    #[error("OutputCount")]
    OutputCount,
    /// `.i`, `.o` or `.p` isn't followed by exactly one word of one to nine decimal digits.
    #[error("BadNumber")]
    BadNumber,
    /// `.ilb` lists more or fewer names than there are inputs, or `.ob` than there are outputs.
    #[error("NameCount")]
    NameCount,
    /// A name with a byte outside 33 to 126.
    #[error("BadName")]
    BadName,
    #[error("UnknownDirective")]
    UnknownDirective,
    /// A logical type other than f and fd, or one that stands after a term.
    #[error("UnsupportedType")]
    UnsupportedType,
    /// An output position `-` or `2` in a description without `.type f`.
    #[error("DontCare")]
    DontCare,
    /// An input position that is none of `0`, `1`, `-` and `2`.
    #[error("BadInputChar")]
    BadInputChar,
    /// An output position that is none of `0`, `1`, `~`, `-` and `2`.
    #[error("BadOutputChar")]
    BadOutputChar,
    /// A term with fewer positions than inputs and outputs.
    #[error("ShortTerm")]
    ShortTerm,
    /// A term with more positions than inputs and outputs.
    #[error("LongTerm")]
    LongTerm,
}

/// Why an input is not read as a cover.
#[derive(Clone, Copy, Debug, PartialEq, Eq, Error)]
pub enum PlaError {
    /// The first faulty line, counted from 1, and its fault. A description that ends without the
    /// numbers of inputs and outputs is faulty at its last line, or at line 0 if it has no line.
    #[error("line {0}: {1}")]
    Line(usize, LineFault),
    #[error("TooLong")]
    TooLong,
    /// A call of the reader failed.
    #[error("Device")]
    Device,
    /// An allocation was refused.
    #[error("OutOfMemory")]
    OutOfMemory,
}

impl From<AllocError> for PlaError {
    ghost use Rattle.std.specs.Prelude.{◌≡◌};
    ghost use Rattle.pla_reader.specs.declared.errors.PlaError.TheVariants.{OutOfMemory};

    ghost from_gives = { λ _ e. e ≡ OutOfMemory };

    fn from(_: AllocError) -> PlaError {
        PlaError::OutOfMemory
    }
}
