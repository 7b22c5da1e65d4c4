//! Pages that have a text for each row.
ghost use Rattle.std.specs.Prelude.{List, []};
ghost use Rattle.index_rules.specs.Maps.{Bytes};
ghost use Rattle.index_pages.specs.Pieces.{Adds, AddsRow, to_pieces};

use crate::pieces::Pieces;
use std::alloc::AllocError;

/// A page so far. `name` is that of its project.
pub trait Page: Drop {
    type Row;

    /// The text that is still to be written, by the name and the rows to come.
    ghost rest: { Self → Bytes → List Self.Row → Bytes };

    /// Appends the text of a row.
    fn append_row<O: Pieces>(
        &mut self,
        name: &str,
        row: &Self::Row,
        out: &mut O,
    ) -> Result<(), AllocError>
        ensures { AddsRow (rest self.old name.now) row.now (rest self.new name.now)
            (to_pieces O.holds out.old out.new) result };

    /// Appends the text behind the rows.
    fn append_last<O: Pieces>(&self, name: &str, out: &mut O) -> Result<(), AllocError>
        ensures { Adds O.holds out.old out.new result (rest self.now name.now []) };
}
