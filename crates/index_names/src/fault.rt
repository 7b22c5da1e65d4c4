//! Why bytes are not a valid name.
ghost use Rattle.std.specs.Prelude.{◌≡◌};
ghost use Rattle.index_names.specs.declared.fault.NameFault.TheVariants.{OutOfMemory};

use std::alloc::AllocError;
use std::error::Error;
use std::fmt;

/// Why bytes are not a valid name.
#[derive(Clone, Copy, Debug, PartialEq, Eq)]
pub enum NameFault {
    /// The bytes are not a project name.
    BadName,
    /// The bytes are not a file name of a wheel or a source archive.
    BadFileName,
    /// The bytes are not a version text.
    BadRelease,
    /// Memory ran out.
    OutOfMemory,
}

impl fmt::Display for NameFault {
    ghost use Rattle.std.specs.Prelude.{Some};
    ghost use Rattle.index_names.specs.Printed.{name_fault_text};

    ghost output = { λ fault. Some (name_fault_text fault) };

    fn fmt<W: fmt::Write>(&self, f: &mut fmt::Formatter<W>) -> fmt::Result {
        f.write_str(match self {
            NameFault::BadName => "not a project name",
            NameFault::BadFileName => "not a file name of a wheel or a source archive",
            NameFault::BadRelease => "not a version text",
            NameFault::OutOfMemory => "out of memory",
        })
    }
}

impl Error for NameFault {}

impl From<AllocError> for NameFault {
    ghost from_gives = { λ _ fault. fault ≡ OutOfMemory };

    fn from(_error: AllocError) -> NameFault {
        NameFault::OutOfMemory
    }
}
