//! Texts that are appended to, piece by piece.
ghost use Rattle.std.specs.Prelude.{◌≡◌};
ghost use Rattle.index_rules.specs.Maps.{Bytes};
ghost use Rattle.index_pages.specs.Html.{text_of_pieces};
ghost use Rattle.index_pages.specs.Pieces.{Adds};

use std::alloc::AllocError;

/// What pieces of a text are appended to.
pub trait Pieces {
    /// Whether this is the text so far.
    ghost holds: { Self → Bytes → Type 0 };

    /// Appends a piece.
    fn put(&mut self, piece: &[u8]) -> Result<(), AllocError>
        ensures { Adds holds self.old self.new result piece.now };
}

impl Pieces for Vec<u8> {
    ghost holds = { λ bytes text. bytes.items ≡ text };

    fn put(&mut self, piece: &[u8]) -> Result<(), AllocError> {
        self.extend_from_slice(piece)
    }
}

/// Appends the pieces in turn.
pub fn append<O: Pieces>(out: &mut O, pieces: &[&[u8]]) -> Result<(), AllocError>
    ensures { Adds O.holds out.old out.new result (text_of_pieces pieces.now) }
{
    for piece in pieces {
        out.put(piece)?;
    }
    Ok(())
}
