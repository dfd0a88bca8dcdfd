//! Why a program's command line asks for no run.

ghost use Rattle.std.specs.Prelude.{◌≡◌};
ghost use Rattle.command_line.specs.Usages.{status_of, usage_kind};

use clap::Error;
use clap::error::ErrorKind;
use std::alloc::AllocError;

/// Why the words after a program's name are no command line that it carries out. The texts of help,
/// of the version and of faults are clap's.
#[derive(Debug, Drop)]
pub enum Usage {
    /// Help or the version was requested.
    Information(Error),
    /// The words are not as the program takes them.
    Refused(Error),
    /// An allocation was refused.
    OutOfMemory,
}

impl Usage {
    /// The exit status: 0 for help or the version, 2 for refused words, 4 for out of memory.
    pub fn status(&self) -> u8
        ensures { result ≡ status_of self.now }
    {
        match self {
            Usage::Information(_) => 0,
            Usage::Refused(_) => 2,
            Usage::OutOfMemory => 4,
        }
    }
}

impl From<Error> for Usage {
    ghost from_gives = { λ error usage. usage ≡ usage_kind error };

    fn from(error: Error) -> Usage {
        match error.kind() {
            ErrorKind::DisplayHelp | ErrorKind::DisplayVersion => Usage::Information(error),
            ErrorKind::OutOfMemory => Usage::OutOfMemory,
            _ => Usage::Refused(error),
        }
    }
}

impl From<AllocError> for Usage {
    ghost use Rattle.command_line.specs.declared.usage.Usage.TheVariants.{OutOfMemory};

    ghost from_gives = { λ _ usage. usage ≡ OutOfMemory };

    fn from(_: AllocError) -> Usage {
        Usage::OutOfMemory
    }
}
