//! How calls end.

ghost use Rattle.std.specs.Prelude.{◌≡◌};
ghost use Rattle.minorder_c.specs.Statuses.{status_of};
ghost use Rattle.minorder_c.specs.declared.status.Refusal.TheVariants.{OutOfMemory};

use std::alloc::AllocError;

#[derive(Clone, Copy, Debug, PartialEq, Eq)]
pub(crate) enum Refusal {
    /// A number of inputs or outputs isn't from 1 to 16, or a length doesn't fit these numbers.
    Shape,
    Certificate,
    OutOfMemory,
    Order,
    /// No order keeps the pairs, or one of them has a variable past the last input.
    Pairs,
}

impl Refusal {
    /// The status of a refused call.
    pub fn status(self) -> u32
        ensures { result ≡ status_of self }
    {
        match self {
            Refusal::Shape => 2,
            Refusal::Certificate => 3,
            Refusal::OutOfMemory => 4,
            Refusal::Order => 5,
            Refusal::Pairs => 8,
        }
    }
}

impl From<AllocError> for Refusal {
    ghost from_gives = { λ _ refusal. refusal ≡ OutOfMemory };

    fn from(_: AllocError) -> Refusal {
        Refusal::OutOfMemory
    }
}
