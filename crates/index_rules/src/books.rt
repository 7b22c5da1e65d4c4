//! The tables, as a trait of the store that holds them.
ghost use Rattle.std.specs.Prelude.{◌≡◌, ℕ, IfOk};
ghost use Rattle.std.specs.FinMap.{get};
ghost use Rattle.index_rules.specs.Tables.{Tables};
ghost use Rattle.index_rules.specs.Facts.{Sees};
ghost use Rattle.index_rules.specs.Verdict.{is_held as is_held_lem};
ghost use Rattle.index_rules.specs.TableRows.{file_rows_in, held_rows_in, name_rows_in};
ghost use Rattle.index_rules.specs.Calls.{Looks, Scans, Writes, counts, model};
ghost use Rattle.index_rules.specs.Results.{Returns, ReturnsItems};
ghost use Rattle.index_rules.specs.Walks.{Walks, WalksSome};

use crate::answer::Fault;
use crate::change::Change;
use crate::keys::Keys;
use crate::rows::{FileRow, NameRow, Taker, WalkEnd};
use crate::view::View;
use index_digest::Sealed;
use index_names::{FileName, NormalName};
use std::alloc::Global;

/// A store that holds the tables. `IsHonest` and `IsClean` never begin to hold during a call. A look at the tables that
/// succeeds leaves an honest store honest if the store is still clean; so does a write that succeeds.
pub trait Books {
    /// The tables in the store.
    ghost tables: { Self → Tables };

    /// Whether the store has done what it was asked to, and is open.
    ghost IsHonest: { Self → Type 0 };

    /// Whether the store has done what it was asked to; a fault may have shut it since.
    ghost IsClean: { Self → Type 0 };

    /// The tables that a crash may leave.
    ghost may_leave: { Self → Tables → Type 0 };

    /// How many calls failed, up to 18,446,744,073,709,551,615.
    ghost failures: { Self → ℕ };

    /// How many calls failed with `Store`, up to 18,446,744,073,709,551,615.
    ghost stores: { Self → ℕ };

    /// How many calls failed, up to 18,446,744,073,709,551,615.
    fn failure_count(&self) -> u64
        ensures { result ≡ failures self.now };

    /// The records that the keys name. It changes no table.
    fn view(&mut self, alloc: Global, keys: &Keys) -> Result<View, Fault>
        ensures found { IsHonest self.new → IfOk result (Sees (tables self.old) keys.now) }
        ensures looks { Looks (model tables IsHonest IsClean may_leave (counts failures stores))
            self.old self.new result };

    /// Writes a change. If it fails, the tables are as they were, unless a fault shut the store. After a crash, or if the
    /// store was shut, they may be so or have the change.
    fn write(&mut self, alloc: Global, change: Change) -> Result<(), Fault>
        ensures { Writes (model tables IsHonest IsClean may_leave (counts failures stores))
            self.old self.new change result };

    /// Whether a name is held. It changes no table.
    fn is_held(&mut self, alloc: Global, name: &NormalName) -> Result<bool, Fault>
        ensures found { IsHonest self.new
            → Returns result (is_held_lem (get (tables self.old).names name.now)) }
        ensures looks { Looks (model tables IsHonest IsClean may_leave (counts failures stores))
            self.old self.new result };

    /// The bytes of a file, or `None` if none are stored: in sound tables, if the file is not undeleted. It changes no
    /// table.
    fn bytes_of(&mut self, alloc: Global, file: &FileName) -> Result<Option<Sealed>, Fault>
        ensures found { IsHonest self.new → Returns result (get (tables self.old).bodies file.now) }
        ensures looks { Looks (model tables IsHonest IsClean may_leave (counts failures stores))
            self.old self.new result };

    /// The held names and the prohibited ones with their records, in byte order. It changes no table.
    fn names(&mut self, alloc: Global) -> Result<Vec<NameRow>, Fault>
        ensures found { IsHonest self.new → ReturnsItems result (name_rows_in (tables self.old)) }
        ensures looks { Looks (model tables IsHonest IsClean may_leave (counts failures stores))
            self.old self.new result };

    /// The undeleted files of a name, in byte order. It changes no table.
    fn files_of(&mut self, alloc: Global, name: &NormalName) -> Result<Vec<FileRow>, Fault>
        ensures found { IsHonest self.new
            → ReturnsItems result (file_rows_in (tables self.old) name.now) }
        ensures looks { Looks (model tables IsHonest IsClean may_leave (counts failures stores))
            self.old self.new result };

    /// Passes the held names to a taker one at a time, in byte order, until it wants no more. It changes no table.
    ///
    /// `Stopped` exactly if the taker returned `false`; that is not counted as a fault. Whatever the store does, the
    /// taker is given some rows in this way, and nothing else is done to it.
    fn walk_held<K: Taker<NameRow>>(&mut self, alloc: Global, taker: &mut K) -> Result<(), WalkEnd>
        ensures walked { IsHonest self.old → IsClean self.new →
            Walks K.takes K.stops (held_rows_in (tables self.old)) taker.old taker.new result }
        ensures given { WalksSome K.takes K.stops taker.old taker.new result }
        ensures looks { Scans (model tables IsHonest IsClean may_leave (counts failures stores))
            self.old self.new result };

    /// Passes the undeleted files of a name to a taker one at a time, in byte order, until it wants no more. It changes
    /// no table.
    ///
    /// `Stopped` exactly if the taker returned `false`; that is not counted as a fault. Whatever the store does, the
    /// taker is given some rows in this way, and nothing else is done to it.
    fn walk_files<K: Taker<FileRow>>(
        &mut self,
        alloc: Global,
        name: &NormalName,
        taker: &mut K,
    ) -> Result<(), WalkEnd>
        ensures walked { IsHonest self.old → IsClean self.new →
            let rows = file_rows_in (tables self.old) name.now in
            Walks K.takes K.stops rows taker.old taker.new result }
        ensures given { WalksSome K.takes K.stops taker.old taker.new result }
        ensures looks { Scans (model tables IsHonest IsClean may_leave (counts failures stores))
            self.old self.new result };

    /// An honest store is clean.
    ghost honest_is_clean: { (books : Self) → IsHonest books → IsClean books };

    /// While the store is honest, a crash leaves the tables as they stand, and nothing else.
    ghost settled: { (books : Self) → IsHonest books → (T : Tables) → may_leave books T →
        T ≡ tables books };
}
