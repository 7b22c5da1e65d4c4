//! What the tables have at the keys of a call.
ghost use Rattle.std.specs.Prelude.{◌≡◌, IfOk, false, option_map};
ghost use Rattle.std.specs.Option.{option_map_or};
ghost use Rattle.std.specs.BTreeMap.{IsOrdered, keys};
ghost use Rattle.index_rules.specs.Facts.{IsBearer, IsBearerAs, Sees, at_both, caller_of, has_release_in, is_banned_in, of_both, owners_of_name, yank_in};
ghost use Rattle.index_rules.specs.Maps.{bytes_cmp};
ghost use Rattle.index_rules.specs.Results.{Returns};
ghost use Rattle.index_rules.specs.Tables.{owners_in};
ghost use Rattle.index_plain.specs.Plain.{plain_tables};
ghost use Rattle.index_rules.specs.Seen.{SeesFiles, SeesName, SeesUsers};

use crate::plain::PlainBooks;
use crate::{name_files, pairs, table};
use index_digest::Digest256;
use index_names::{FileName, NormalName, Release};
use index_rules::{Caller, FilesSeen, Keys, NameSeen, Owners, UserId, UserRecord, UsersSeen, View};
use index_text::Text;
use std::alloc::{AllocError, Global};
use std::collections::BTreeMap;

impl PlainBooks {
    /// The records at the keys.
    pub(crate) fn look(&self, alloc: Global, keys: &Keys) -> Result<View, AllocError>
        ensures { IfOk result (Sees (plain_tables self.now) keys.now) }
    {
        let users = self.users_at(keys)?;
        let files = self.files_at(keys)?;
        let name = self.name_at(alloc, keys)?;
        Ok(View::from_parts(users, name, files))
    }

    /// The caller, the user whom the call names and the user who has the token that it brings.
    fn users_at(&self, keys: &Keys) -> Result<UsersSeen, AllocError>
        ensures { IfOk result (SeesUsers (plain_tables self.now) keys.now) }
    {
        let user = table::copy_at_key(&self.accounts.users, &keys.user)?;
        let caller = self.caller(keys.caller)?;
        let bearer = self.bearer_id(keys.token)?;
        Ok(UsersSeen {
            caller,
            user,
            bearer,
        })
    }

    /// What the tables have of the file and of the release that the call names.
    fn files_at(&self, keys: &Keys) -> Result<FilesSeen, AllocError>
        ensures { IfOk result (SeesFiles (plain_tables self.now) keys.now) }
    {
        let has_release = self.has_release(&keys.name, &keys.release);
        let is_banned = self.is_banned(&keys.file);
        let file = table::copy_at_key(&self.files, &keys.file)?;
        let yank = self.yank(&keys.name, &keys.release)?;
        Ok(FilesSeen {
            file,
            is_banned,
            yank,
            has_release,
        })
    }

    /// The record, the owners and the case of the name that the call is about.
    fn name_at(&self, alloc: Global, keys: &Keys) -> Result<NameSeen, AllocError>
        ensures { IfOk result (SeesName (plain_tables self.now) keys.now.name) }
    {
        let case = table::copy_at_key(&self.cases, &keys.name)?;
        let owners = self.owners_by_key(alloc, &keys.name)?;
        let name = table::copy_at_key(&self.names, &keys.name)?;
        Ok(NameSeen { name, owners, case })
    }

    /// The owners of a name in byte order.
    fn owners_by_name(&self, alloc: Global, name: &NormalName) -> Result<Owners, AllocError>
        ensures { Returns result (owners_in (plain_tables self.now) name.now) }
    {
        match self.owners.get(name) {
            Some(users) => owners_from(alloc, users),
            None => Ok(Owners::new(Vec::new(alloc))),
        }
    }

    /// The owners of the name, or none if the call is about no name.
    fn owners_by_key(&self, alloc: Global, name: &Option<NormalName>) -> Result<Owners, AllocError>
        ensures { Returns result (owners_of_name (plain_tables self.now) name.now) }
    {
        match name {
            Some(name) => self.owners_by_name(alloc, name),
            None => Ok(Owners::new(Vec::new(alloc))),
        }
    }

    /// Why a release is yanked, if it is.
    fn yank(
        &self,
        name: &Option<NormalName>,
        release: &Option<Release>,
    ) -> Result<Option<Text>, AllocError>
        ensures { Returns result (at_both (yank_in (plain_tables self.now)) name.now release.now) }
    {
        match (name, release) {
            (Some(name), Some(release)) => pairs::find(&self.yanks, name, release).cloned(),
            _ => Ok(None),
        }
    }

    /// Whether a release has an undeleted file.
    fn has_release(&self, name: &Option<NormalName>, release: &Option<Release>) -> bool
        ensures { result ≡ of_both (has_release_in (plain_tables self.now)) name.now release.now }
    {
        match (name, release) {
            (Some(name), Some(release)) => name_files::has_undeleted(&self.files, name, release),
            _ => false,
        }
    }

    /// Whether a file is banned.
    fn is_banned(&self, file: &Option<FileName>) -> bool
        ensures { result ≡ option_map_or (is_banned_in (plain_tables self.now)) file.now false }
    {
        match file {
            Some(file) => table::find(&self.bans, file).is_some(),
            None => false,
        }
    }

    /// The user who has the token with this digest.
    fn bearer(&self, token: Digest256) -> Option<(&UserId, &UserRecord)>
        ensures { let bearer = option_map (λ user. (user.0.now, user.1.now)) result in
            IsBearer (plain_tables self.now) token bearer }
    {
        let user = pairs::first_at(&self.accounts.bearers, &token)?;
        match table::find(&self.accounts.users, user) {
            Some(known) => Some((user, known)),
            // An invariant of the accounts: each digest of a token leads to a user.
            None => unreachable!(),
        }
    }

    /// A copy of the user who has the token with this digest.
    fn caller(&self, token: Option<Digest256>) -> Result<Option<Caller>, AllocError>
        ensures { IfOk result (IsBearerAs caller_of (plain_tables self.now) token) }
    {
        let Some(token) = token else {
            return Ok(None);
        };
        match self.bearer(token) {
            Some((user, record)) => Ok(Some(Caller {
                user: user.clone()?,
                office: record.office,
            })),
            None => Ok(None),
        }
    }

    /// A copy of the id of the user who has the token with this digest.
    fn bearer_id(&self, token: Option<Digest256>) -> Result<Option<UserId>, AllocError>
        ensures { IfOk result (IsBearerAs (λ user. user.0) (plain_tables self.now) token) }
    {
        let Some(token) = token else {
            return Ok(None);
        };
        match self.bearer(token) {
            Some((user, _)) => Ok(Some(user.clone()?)),
            None => Ok(None),
        }
    }
}

/// These users in byte order.
fn owners_from(alloc: Global, users: &BTreeMap<UserId, ()>) -> Result<Owners, AllocError>
    ensures owners { Returns result (keys users.now) }
    ensures rising { IsOrdered bytes_cmp users.now }
{
    let mut copies = Vec::new(alloc);
    for user in users.keys() {
        copies.push(user.clone()?)?;
    }
    Ok(Owners::new(copies))
}
