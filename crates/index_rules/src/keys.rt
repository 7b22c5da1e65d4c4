//! The parts of a call that can be parsed.
ghost use Rattle.std.specs.Prelude.{◌≡◌, IfOk, IfErr, IsSome, option_map};
ghost use Rattle.index_names.specs.FileName.{project_of};
ghost use Rattle.index_rules.specs.Memory.{OkOrNoMemory};
ghost use Rattle.index_rules.specs.Requests.{HasReadableKey, ReadsKeys, any_on_file, any_on_name, any_on_owner};
ghost use Rattle.index_rules.specs.Requests.{any_on_release, any_on_user, keys_of, keys_of_name};

use crate::answer::Fault;
use crate::bytes::Bytes;
use crate::call::{Call, Request};
use crate::reading::{read_token, readable_file, readable_name, readable_release, readable_user};
use crate::user::UserId;
use index_digest::Digest256;
use index_names::{FileName, NormalName, Release};
use std::alloc::{AllocError, Global};

/// What is looked up for a call: the parts of it that can be parsed.
#[derive(Debug)]
pub struct Keys {
    /// The digest of the caller's token.
    pub caller: Option<Digest256>,
    /// The user that the call names, and the digest of the token that it brings for that user.
    pub user: Option<UserId>,
    pub token: Option<Digest256>,
    pub name: Option<NormalName>,
    pub file: Option<FileName>,
    /// The release that the call names with the name.
    pub release: Option<Release>,
}

// By hand: each exit of a function then makes one call to drop (docs/developers/PROOF-COSTS.md).
impl Drop for Keys {
    fn drop(self) {
        let Keys {
            caller: _caller,
            user: _user,
            token: _token,
            name: _name,
            file: _file,
            release: _release,
        } = self;
    }
}

impl Keys {
    /// The keys of this name alone.
    ///
    /// # Errors
    ///
    /// `OutOfMemory`.
    pub fn of_name(name: &NormalName) -> Result<Keys, Fault>
        ensures { OkOrNoMemory result (λ keys. keys ≡ keys_of_name name.now) }
    {
        let name = name.clone()?;
        Ok(Keys {
            caller: None,
            user: None,
            token: None,
            name: Some(name),
            file: None,
            release: None,
        })
    }
}

impl Call {
    /// The parts of the call that can be parsed, each `None` if absent or invalid.
    ///
    /// # Errors
    ///
    /// `OutOfMemory`.
    pub fn keys(&self, alloc: Global) -> Result<Keys, Fault>
        ensures keys { OkOrNoMemory result (λ keys. keys ≡ keys_of self.now) }
        // A call with nothing to be looked up but its caller needs no memory.
        ensures readable { IfErr result (λ _. HasReadableKey self.now.request) }
    {
        let caller = Some(self.token);
        let keys = match &self.request {
            Request::AddUser { user, token, .. } | Request::SetToken { user, token } => {
                user_keys(alloc, caller, user, token)
            }
            Request::SetQuota { name, .. }
            | Request::Claim { name }
            | Request::Relinquish { name }
            | Request::Prohibit { name }
            | Request::Allow { name }
            | Request::OpenCase { name, .. }
            | Request::RecordAttempt { name, .. }
            | Request::Transfer { name, .. }
            | Request::CloseCase { name }
            | Request::AnswerCase { name } => name_keys(alloc, caller, name),
            Request::AddOwner { name, user } | Request::RemoveOwner { name, user } => {
                owner_keys(alloc, caller, name, user)
            }
            Request::Yank { name, release, .. } | Request::Unyank { name, release } => {
                release_keys(alloc, caller, name, release)
            }
            Request::Upload { file, .. } | Request::Delete { file } | Request::BanFile { file } => {
                file_keys(alloc, caller, file)
            }
        };
        Ok(keys?)
    }
}

/// The keys of a call on a user: the user, and the digest of the token that it brings for that user.
fn user_keys(
    alloc: Global,
    caller: Option<Digest256>,
    user: &Bytes,
    token: &Bytes,
) -> Result<Keys, AllocError>
    ensures { ReadsKeys caller (any_on_user user.now token.now) result }
{
    Ok(Keys {
        caller,
        user: readable_user(alloc, user)?,
        token: read_token(token.as_slice()),
        name: None,
        file: None,
        release: None,
    })
}

/// The keys of a call on a name.
fn name_keys(alloc: Global, caller: Option<Digest256>, name: &Bytes) -> Result<Keys, AllocError>
    ensures { ReadsKeys caller (any_on_name name.now) result }
{
    Ok(Keys {
        caller,
        user: None,
        token: None,
        name: readable_name(alloc, name)?,
        file: None,
        release: None,
    })
}

/// The keys of a call on a name and a user.
fn owner_keys(
    alloc: Global,
    caller: Option<Digest256>,
    name: &Bytes,
    user: &Bytes,
) -> Result<Keys, AllocError>
    ensures { ReadsKeys caller (any_on_owner name.now user.now) result }
{
    Ok(Keys {
        caller,
        user: readable_user(alloc, user)?,
        token: None,
        name: readable_name(alloc, name)?,
        file: None,
        release: None,
    })
}

/// The keys of a call on a name and a release.
fn release_keys(
    alloc: Global,
    caller: Option<Digest256>,
    name: &Bytes,
    release: &Bytes,
) -> Result<Keys, AllocError>
    ensures { ReadsKeys caller (any_on_release name.now release.now) result }
{
    Ok(Keys {
        caller,
        user: None,
        token: None,
        name: readable_name(alloc, name)?,
        file: None,
        release: readable_release(alloc, release)?,
    })
}

/// The keys of a call on a file: the file, and the project that its name spells.
fn file_keys(alloc: Global, caller: Option<Digest256>, file: &Bytes) -> Result<Keys, AllocError>
    ensures { ReadsKeys caller (any_on_file file.now) result }
{
    let file = readable_file(alloc, file)?;
    let name = project_of_file(&file)?;
    Ok(Keys {
        caller,
        user: None,
        token: None,
        name,
        file,
        release: None,
    })
}

/// The project that the name of a file spells.
fn project_of_file(file: &Option<FileName>) -> Result<Option<NormalName>, AllocError>
    ensures name { IfOk result (λ name. name ≡ option_map project_of file.now) }
    ensures readable { IfErr result (λ _. IsSome file.now) }
{
    match file {
        Some(file) => Ok(Some(file.project().clone()?)),
        None => Ok(None),
    }
}
