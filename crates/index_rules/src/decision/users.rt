//! The office's requests on users.
ghost use Rattle.std.specs.Prelude.{◌≡◌, Some};
ghost use Rattle.index_rules.specs.declared.call.Request.TheVariants.{AddUser, SetToken};
ghost use Rattle.index_rules.specs.Verdict.{is_user_with as is_user_with_lem, is_taken as is_taken_lem};
ghost use Rattle.index_rules.specs.Decided.{DecidesIn};

use super::context::Context;
use super::{Decision, Stop};
use crate::answer::Refusal;
use crate::bytes::Bytes;
use crate::change::Change;
use crate::reading::{is_user, read_token, to_user};
use crate::records::UserRecord;
use crate::user::UserId;
use index_digest::Digest256;

/// Adds a user with the digest of a token. Refused, in this order, as NotOffice, BadUser, BadDigest, UserExists,
/// TokenTaken; Already if the user exists with this flag and this digest.
pub fn add_user(
    context: &Context<'_>,
    user: &Bytes,
    office: bool,
    token: &Bytes,
) -> Result<Decision, Stop>
    ensures { DecidesIn context.now (AddUser user.now office token.now) result }
{
    if !context.caller.office {
        return Err(Stop::Refused(Refusal::NotOffice));
    }
    if !is_user(user) {
        return Err(Stop::Refused(Refusal::BadUser));
    }
    let Some(token) = read_token(token.as_slice()) else {
        return Err(Stop::Refused(Refusal::BadDigest));
    };
    let is_there = match &context.view.user {
        Some(record) => {
            if !is_user_with(record, office, &token) {
                return Err(Stop::Refused(Refusal::UserExists));
            }
            true
        }
        None => false,
    };
    if is_taken(&context.view.bearer, user.as_slice()) {
        return Err(Stop::Refused(Refusal::TokenTaken));
    }
    if is_there {
        return Ok(Decision::Already);
    }
    let user = to_user(context.alloc, user)?;
    let record = UserRecord { office, token };
    Ok(Decision::Change(Change::AddUser { user, record }))
}

/// Gives a user the digest of another token. Refused, in this order, as NotOffice, BadUser, BadDigest, NoUser,
/// TokenTaken; Already if the user has this digest.
pub fn set_token(context: &Context<'_>, user: &Bytes, token: &Bytes) -> Result<Decision, Stop>
    ensures { DecidesIn context.now (SetToken user.now token.now) result }
{
    if !context.caller.office {
        return Err(Stop::Refused(Refusal::NotOffice));
    }
    if !is_user(user) {
        return Err(Stop::Refused(Refusal::BadUser));
    }
    let Some(token) = read_token(token.as_slice()) else {
        return Err(Stop::Refused(Refusal::BadDigest));
    };
    let Some(record) = &context.view.user else {
        return Err(Stop::Refused(Refusal::NoUser));
    };
    if is_taken(&context.view.bearer, user.as_slice()) {
        return Err(Stop::Refused(Refusal::TokenTaken));
    }
    if token == record.token {
        return Ok(Decision::Already);
    }
    let user = to_user(context.alloc, user)?;
    let office = record.office;
    let record = UserRecord { office, token };
    Ok(Decision::Change(Change::SetToken { user, record }))
}

/// Whether the user has this office flag and this digest of a token.
fn is_user_with(user: &UserRecord, office: bool, token: &Digest256) -> bool
    ensures { result ≡ is_user_with_lem office (Some token.now) user.now }
{
    user.office == office && *token == user.token
}

/// Whether a user other than the one with this id has the token.
fn is_taken(bearer: &Option<UserId>, user: &[u8]) -> bool
    ensures { result ≡ is_taken_lem bearer.now (Some user.now) }
{
    match bearer {
        Some(bearer) => user != bearer.text().as_bytes(),
        None => false,
    }
}
