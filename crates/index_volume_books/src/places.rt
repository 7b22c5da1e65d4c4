//! Books that have places for the bytes of files.
ghost use Rattle.std.specs.Prelude.{◌≡◌, IfOk, IfSome, OnOk, option_map};
ghost use Rattle.std.specs.FinMap.{get};
ghost use Rattle.index_rules.specs.Calls.{Looks, counts, model};
ghost use Rattle.index_rules.specs.Tables.{Tables};
ghost use Rattle.index_volume_books.specs.Last.{IsDigestOf, IsLast};

use index_digest::Digest256;
use index_names::FileName;
use index_rules::{Books, Fault};
use std::alloc::Global;

/// What books have of a file: its digest, and the text that is stored in place of its bytes.
#[derive(Debug)]
pub struct Kept {
    /// The digest in the file's record. It is that of the bytes, and not of what is stored.
    pub digest: Digest256,
    /// The text of a place, if the books are sound.
    pub stored: Vec<u8>,
}

// By hand: each exit of a function then makes one call to drop (docs/developers/PROOF-COSTS.md).
impl Drop for Kept {
    fn drop(self) {
        let Kept {
            digest: _digest,
            stored: _stored,
        } = self;
    }
}

/// Books that can return what they store of a file without a test of its digest.
pub trait Places: Books {
    /// The digest of a file and what is stored for its bytes, or `None` if nothing is. It changes no table.
    ///
    /// # Errors
    ///
    /// `OutOfMemory` if memory runs out, and `Store` if the store fails or no digest is known for what is stored.
    fn kept_of(&mut self, alloc: Global, file: &FileName) -> Result<Option<Kept>, Fault>
        ensures found { Self.IsHonest self.new → IfOk result (λ it.
            option_map (λ kept. kept.stored.items) it
            ≡ get (Self.tables self.old).bodies file.now) }
        ensures digest { Self.IsHonest self.new → IfOk result (λ it.
            IfSome it (λ kept. IsDigestOf (Self.tables self.old) file.now kept.digest)) }
        ensures looks { Looks (model Self.tables Self.IsHonest Self.IsClean Self.may_leave
            (counts Self.failures Self.stores)) self.old self.new result }
        // Books that could be looked at are open: they have done what they were asked to as far as it is said what a
        // crash leaves of them.
        ensures works { OnOk result ((T : Tables) → Self.may_leave self.new T
            → Self.IsHonest self.new) };
}

/// Books that can say which of their places ends last.
pub trait Ends: Places {
    /// The file whose place ends last, or `None` if nothing is stored for any. It changes no table.
    ///
    /// # Errors
    ///
    /// `OutOfMemory` if memory runs out, and `Store` if the store fails or a text that is stored for a file has not the
    /// 16 bytes of a place.
    fn last_file(&mut self, alloc: Global) -> Result<Option<FileName>, Fault>
        ensures found { Self.IsHonest self.new → IfOk result (IsLast (Self.tables self.old)) }
        ensures looks { Looks (model Self.tables Self.IsHonest Self.IsClean Self.may_leave
            (counts Self.failures Self.stores)) self.old self.new result }
        ensures works { OnOk result ((T : Tables) → Self.may_leave self.new T
            → Self.IsHonest self.new) };
}
