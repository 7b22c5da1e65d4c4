//! The ends of runs over lines and over connections.
use std::error::Error;
use std::fmt;

/// Why a run over lines ended before the end of its input.
#[derive(Clone, Copy, Debug, PartialEq, Eq, Hash)]
pub enum LineEnd {
    /// A read failed, or 1,099,511,627,776 bytes were read.
    ReadFault,
    /// A write failed, or took no byte.
    WriteFault,
    OutOfMemory,
}

impl fmt::Display for LineEnd {
    ghost use Rattle.std.specs.Prelude.{Some};
    ghost use Rattle.index_cli.specs.Printed.{line_end_text};

    ghost output = { λ end. Some (line_end_text end) };

    fn fmt<W: fmt::Write>(&self, f: &mut fmt::Formatter<W>) -> fmt::Result {
        f.write_str(match self {
            LineEnd::ReadFault => "ReadFault",
            LineEnd::WriteFault => "WriteFault",
            LineEnd::OutOfMemory => "OutOfMemory",
        })
    }
}

impl Error for LineEnd {}

/// Why a run over connections ended before the last of them.
#[derive(Clone, Copy, Debug, PartialEq, Eq, Hash)]
pub enum ServeEnd {
    /// A connection can't be accepted.
    ReadFault,
    /// The clock can't be read, or is set before 1970.
    Clock,
    /// A fault has shut the store.
    Store,
}

impl fmt::Display for ServeEnd {
    ghost use Rattle.std.specs.Prelude.{Some};
    ghost use Rattle.index_cli.specs.Printed.{serve_end_text};

    ghost output = { λ end. Some (serve_end_text end) };

    fn fmt<W: fmt::Write>(&self, f: &mut fmt::Formatter<W>) -> fmt::Result {
        f.write_str(match self {
            ServeEnd::ReadFault => "ReadFault",
            ServeEnd::Clock => "Clock",
            ServeEnd::Store => "Store",
        })
    }
}

impl Error for ServeEnd {}
