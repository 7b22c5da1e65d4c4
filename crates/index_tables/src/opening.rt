//! Why an index was not opened on a connection.
ghost use Rattle.std.specs.Prelude.{◌≡◌};
ghost use Rattle.index_tables.specs.Opened.{IsFault, open_fault_by};

use index_rules::{Fault, OpenFault};
use sqlite::{Alter, Connection};

/// A connection on which no index was opened, and why.
pub struct Unopened<S: Alter> {
    pub why: OpenFault,
    pub conn: Connection<S>,
}

/// A fault as the reason for which no index was opened.
pub(crate) fn open_fault_of(fault: Fault) -> OpenFault
    ensures is { result ≡ open_fault_by fault }
    ensures fault { IsFault result }
{
    match fault {
        Fault::OutOfMemory => OpenFault::OutOfMemory,
        Fault::Store => OpenFault::Store,
    }
}
