//! How a run ends.

ghost use Rattle.std.specs.Prelude.{◌≡◌, ◌⊎◌, IfSome, IfNone};
ghost use Rattle.outcomes.specs.Statuses.{certificate_refusal, refusal_of, status_of};

use certificate::{CertFault, LineFault as CertificateFault};
use order_model::PairsFault;
use pla_reader::{LineFault, PlaError};

/// Why a run was refused.
#[derive(Clone, Copy, Debug, PartialEq, Eq)]
pub enum Fault {
    /// The first faulty line of the PLA file, counted from 1, or 0 for an empty file, and its
    /// fault.
    Line(usize, LineFault),
    /// The PLA file has more than 16,777,216 bytes.
    TooLong,
    /// An allocation was refused.
    OutOfMemory,
    /// A file was not opened or made, or a read or a write failed.
    Device,
    /// A store for building from truth tables was full. No run is refused for this reason.
    StoreFull,
    /// The pairs that the order has to keep are refused.
    Pairs(PairsFault),
    /// The first faulty line of the certificate, counted from 1, and its fault.
    CertificateLine(usize, CertificateFault),
    /// The certificate has more than 1,048,576 bytes.
    CertificateTooLong,
}

/// How a run ends.
#[derive(Clone, Copy, Debug, PartialEq, Eq)]
pub enum Outcome {
    /// The run is done, and all its texts are written. If it was a check, the certificate is valid.
    Done,
    /// The certificate is not valid, and the reason is written.
    Invalid,
    /// The run was refused, for this reason.
    Refused(Fault),
}

impl Outcome {
    /// The exit status: 0 done, 1 the certificate is not valid, 3 input refused, 4 out of memory, 5
    /// a device failed, 6 the store is full (no run ends so), 8 pairs refused.
    pub fn status(self) -> u8
        ensures { result ≡ status_of self }
    {
        match self {
            Outcome::Done => 0,
            Outcome::Invalid => 1,
            Outcome::Refused(Fault::Line(_, _) | Fault::TooLong) => 3,
            Outcome::Refused(Fault::CertificateLine(_, _) | Fault::CertificateTooLong) => 3,
            Outcome::Refused(Fault::OutOfMemory) => 4,
            Outcome::Refused(Fault::Device) => 5,
            Outcome::Refused(Fault::StoreFull) => 6,
            Outcome::Refused(Fault::Pairs(_)) => 8,
        }
    }

    /// Why the run was refused. None for `Done` and `Invalid`.
    pub fn fault(self) -> Option<Fault>
        ensures refused { IfSome result (λ fault. self ≡ Outcome.Refused fault) }
        ensures done { IfNone result ((self ≡ Outcome.Done) ⊎ (self ≡ Outcome.Invalid)) }
    {
        match self {
            Outcome::Done | Outcome::Invalid => None,
            Outcome::Refused(fault) => Some(fault),
        }
    }
}

impl From<PlaError> for Fault {
    ghost from_gives = { λ error fault. fault ≡ refusal_of error };

    fn from(error: PlaError) -> Fault {
        match error {
            PlaError::Line(line, fault) => Fault::Line(line, fault),
            PlaError::TooLong => Fault::TooLong,
            PlaError::Device => Fault::Device,
            PlaError::OutOfMemory => Fault::OutOfMemory,
        }
    }
}

impl From<CertFault> for Fault {
    ghost from_gives = { λ error fault. fault ≡ certificate_refusal error };

    fn from(error: CertFault) -> Fault {
        match error {
            CertFault::Line(line, fault) => Fault::CertificateLine(line, fault),
            CertFault::TooLong => Fault::CertificateTooLong,
            CertFault::OutOfMemory => Fault::OutOfMemory,
        }
    }
}
