//! The tables in memory.
ghost use Rattle.std.specs.Prelude.{◌≡◌, IfOk, false, not};
ghost use Rattle.index_rules.specs.Walks.{has_fault};

use crate::accounts::Accounts;
use crate::table;
use index_digest::{Digest256, Sealed};
use index_names::{FileName, NormalName, Release};
use index_rules::{
    Books, CaseRecord, Change, Fault, FileRecord, FileRow, Keys, NameRecord, NameRow, OpenFault,
    Taker, UserId, View, WalkEnd, first_user,
};
use index_text::Text;
use std::alloc::Global;
use std::collections::BTreeMap;

mod cases;
mod files;
mod look;
mod names;
mod owners;
mod releases;
mod rows;
mod write;

/// The tables in memory, as ordered maps. A call fails only with `OutOfMemory`.
#[derive(Debug)]
pub struct PlainBooks {
    accounts: Accounts,
    names: BTreeMap<NormalName, NameRecord>,
    owners: BTreeMap<NormalName, BTreeMap<UserId, ()>>,
    files: BTreeMap<FileName, FileRecord>,
    bodies: BTreeMap<FileName, Sealed>,
    yanks: BTreeMap<NormalName, BTreeMap<Release, Text>>,
    cases: BTreeMap<NormalName, CaseRecord>,
    bans: BTreeMap<FileName, ()>,
    failures: u64,
}

// By hand: each exit of a function then makes one call to drop (docs/developers/PROOF-COSTS.md).
impl Drop for PlainBooks {
    fn drop(self) {
        let PlainBooks {
            accounts: _accounts,
            names: _names,
            owners: _owners,
            files: _files,
            bodies: _bodies,
            yanks: _yanks,
            cases: _cases,
            bans: _bans,
            failures: _failures,
        } = self;
    }
}

impl PlainBooks {
    ghost use Rattle.index_names.specs.Faults.{FailsByEither};
    ghost use Rattle.index_rules.specs.FirstTables.{RefusesBadFirstUser, first_tables};
    ghost use Rattle.index_rules.specs.Sound.{IsSound};
    ghost use Rattle.index_rules.specs.History.{begins};
    ghost use Rattle.index_rules.specs.StandsFor.{StandsFor};
    ghost use Rattle.index_plain.specs.Plain.{Opens, PlainLooksUp, failures_of, plain_tables};

    /// A new index with one user, who is of the office and whose token has this SHA-256 digest.
    ///
    /// # Errors
    ///
    /// `BadFirstUser` exactly if the bytes are not a valid user id or the digest is that of the empty text, else
    /// `OutOfMemory`.
    pub fn new(alloc: Global, user: &[u8], token: Digest256) -> Result<PlainBooks, OpenFault>
        ensures tables { IfOk result (λ books. plain_tables books ≡ first_tables user.now token) }
        ensures sound { IfOk result (λ books. IsSound (plain_tables books)) }
        ensures history { let h = begins user.now token in
            IfOk result (λ books. StandsFor (plain_tables books) h) }
        ensures failures { IfOk result (λ books. failures_of books ≡ 0) }
        ensures bad_first_user { RefusesBadFirstUser user.now token result }
        ensures fault { FailsByEither result OpenFault.BadFirstUser OpenFault.OutOfMemory }
    {
        PlainBooks::with_first_user(alloc, user, token)
    }

    /// The books that `new` returns, by one definition.
    fn with_first_user(
        alloc: Global,
        user: &[u8],
        token: Digest256,
    ) -> Result<PlainBooks, OpenFault>
        ensures { Opens user.now token result }
    {
        let (user, record) = first_user(alloc, user, token)?;
        let mut accounts = Accounts::new(alloc);
        accounts.put(alloc, &user, record)?;
        Ok(PlainBooks {
            accounts,
            names: BTreeMap::new(alloc),
            owners: BTreeMap::new(alloc),
            files: BTreeMap::new(alloc),
            bodies: BTreeMap::new(alloc),
            yanks: BTreeMap::new(alloc),
            cases: BTreeMap::new(alloc),
            bans: BTreeMap::new(alloc),
            failures: 0,
        })
    }

    /// Counts a failure because memory ran out.
    fn count_failure(&mut self) -> Fault
        ensures fault { result ≡ Fault.OutOfMemory }
        ensures counts { PlainLooksUp self.old self.new false }
    {
        self.failures = self.failures.saturating_add(1);
        Fault::OutOfMemory
    }

    /// Counts a walk that a fault ended.
    fn count_walk(&mut self, ended: &Result<(), WalkEnd>)
        ensures counts { PlainLooksUp self.old self.new (not (has_fault ended.now)) }
    {
        match ended {
            Ok(()) | Err(WalkEnd::Stopped) => {}
            Err(WalkEnd::OutOfMemory | WalkEnd::Store) => {
                self.failures = self.failures.saturating_add(1);
            }
        }
    }
}

impl Books for PlainBooks {
    ghost use Rattle.std.specs.Prelude.{⊤};
    ghost use Rattle.std.specs.FinMap.{get};
    ghost use Rattle.index_rules.specs.Facts.{Sees};
    ghost use Rattle.index_rules.specs.Results.{Returns, ReturnsItems};
    ghost use Rattle.index_rules.specs.TableRows.{file_rows_in, name_rows_in};
    ghost use Rattle.index_rules.specs.Verdict.{is_held as is_held_lem};
    ghost use Rattle.index_rules.specs.Walks.{to_taker};
    ghost use Rattle.index_plain.specs.Plain.{HandsFiles, HandsNames, LooksInMemory, PlainLooksUp, PlainMakesOrCounts, failures_of, plain_tables};

    ghost tables = { plain_tables };

    ghost IsHonest = { λ books. ⊤ };

    ghost IsClean = { λ books. ⊤ };

    ghost may_leave = { λ books T. ⊥ };

    ghost failures = { failures_of };

    ghost stores = { λ books. 0 };

    fn failure_count(&self) -> u64 {
        self.failures
    }

    fn view(&mut self, alloc: Global, keys: &Keys) -> Result<View, Fault>
        ensures { LooksInMemory self.old self.new result (λ T. IfOk result (Sees T keys.now)) }
    {
        match self.look(alloc, keys) {
            Ok(view) => Ok(view),
            Err(_) => Err(self.count_failure()),
        }
    }

    fn write(&mut self, alloc: Global, change: Change) -> Result<(), Fault>
        ensures { PlainMakesOrCounts change self.old self.new result }
    {
        match self.make(alloc, change) {
            Ok(()) => Ok(()),
            Err(_) => Err(self.count_failure()),
        }
    }

    fn is_held(&mut self, _alloc: Global, name: &NormalName) -> Result<bool, Fault>
        ensures { LooksInMemory self.old self.new result
            (λ T. Returns result (is_held_lem (get T.names name.now))) }
    {
        let record = table::find(&self.names, name);
        Ok(matches!(record, Some(NameRecord::Held(_))))
    }

    fn bytes_of(&mut self, _alloc: Global, file: &FileName) -> Result<Option<Sealed>, Fault>
        ensures { LooksInMemory self.old self.new result
            (λ T. Returns result (get T.bodies file.now)) }
    {
        match table::copy_at(&self.bodies, file) {
            Ok(body) => Ok(body),
            Err(_) => Err(self.count_failure()),
        }
    }

    fn names(&mut self, alloc: Global) -> Result<Vec<NameRow>, Fault>
        ensures { LooksInMemory self.old self.new result
            (λ T. ReturnsItems result (name_rows_in T)) }
    {
        match self.name_rows(alloc) {
            Ok(rows) => Ok(rows),
            Err(_) => Err(self.count_failure()),
        }
    }

    fn files_of(&mut self, alloc: Global, name: &NormalName) -> Result<Vec<FileRow>, Fault>
        ensures { LooksInMemory self.old self.new result
            (λ T. ReturnsItems result (file_rows_in T name.now)) }
    {
        match self.file_rows(alloc, name) {
            Ok(rows) => Ok(rows),
            Err(_) => Err(self.count_failure()),
        }
    }

    fn walk_held<K: Taker<NameRow>>(&mut self, _alloc: Global, taker: &mut K) -> Result<(), WalkEnd>
        ensures walked { HandsNames self.old (to_taker K.takes K.stops taker.old taker.new) result }
        ensures looks { PlainLooksUp self.old self.new (not (has_fault result)) }
    {
        let ended = self.hand_names(taker);
        self.count_walk(&ended);
        ended
    }

    fn walk_files<K: Taker<FileRow>>(
        &mut self,
        _alloc: Global,
        name: &NormalName,
        taker: &mut K,
    ) -> Result<(), WalkEnd>
        ensures walked { HandsFiles self.old name.now
            (to_taker K.takes K.stops taker.old taker.new) result }
        ensures looks { PlainLooksUp self.old self.new (not (has_fault result)) }
    {
        let ended = self.hand_files(name, taker);
        self.count_walk(&ended);
        ended
    }

    ghost honest_is_clean = { λ books honest. honest };

    ghost settled = { λ books honest T left. absurd left };
}
