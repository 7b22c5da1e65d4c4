//! Owners' requests on owners.
ghost use Rattle.index_rules.specs.declared.call.Request.TheVariants.{AddOwner, RemoveOwner};
ghost use Rattle.index_rules.specs.Decided.{DecidesIn};

use super::context::Context;
use super::{Decision, Stop};
use crate::answer::Refusal;
use crate::bytes::Bytes;
use crate::change::Change;
use crate::reading::{is_name, is_user, to_name, to_user};

/// Makes a user one more owner of a name. Refused, in this order, as BadUser, BadName, NoUser, NoProject, NotOwner;
/// Already if the user owns the name.
pub fn add_owner(context: &Context<'_>, name: &Bytes, user: &Bytes) -> Result<Decision, Stop>
    ensures { DecidesIn context.now (AddOwner name.now user.now) result }
{
    if !is_user(user) {
        return Err(Stop::Refused(Refusal::BadUser));
    }
    if !is_name(name) {
        return Err(Stop::Refused(Refusal::BadName));
    }
    if context.view.user.is_none() {
        return Err(Stop::Refused(Refusal::NoUser));
    }
    if context.project().is_none() {
        return Err(Stop::Refused(Refusal::NoProject));
    }
    if !context.owns() {
        return Err(Stop::Refused(Refusal::NotOwner));
    }
    if context.is_owner(user.as_slice()) {
        return Ok(Decision::Already);
    }
    let name = to_name(context.alloc, name)?;
    let user = to_user(context.alloc, user)?;
    Ok(Decision::Change(Change::AddOwner { name, user }))
}

/// Takes a user from the owners of a name. Refused, in this order, as BadUser, BadName, NoUser, NoProject, NotOwner,
/// LastOwner; Already if the user doesn't own the name.
pub fn remove_owner(context: &Context<'_>, name: &Bytes, user: &Bytes) -> Result<Decision, Stop>
    ensures { DecidesIn context.now (RemoveOwner name.now user.now) result }
{
    if !is_user(user) {
        return Err(Stop::Refused(Refusal::BadUser));
    }
    if !is_name(name) {
        return Err(Stop::Refused(Refusal::BadName));
    }
    if context.view.user.is_none() {
        return Err(Stop::Refused(Refusal::NoUser));
    }
    if context.project().is_none() {
        return Err(Stop::Refused(Refusal::NoProject));
    }
    if !context.owns() {
        return Err(Stop::Refused(Refusal::NotOwner));
    }
    if context.is_sole_owner(user.as_slice()) {
        return Err(Stop::Refused(Refusal::LastOwner));
    }
    if !context.is_owner(user.as_slice()) {
        return Ok(Decision::Already);
    }
    let name = to_name(context.alloc, name)?;
    let user = to_user(context.alloc, user)?;
    Ok(Decision::Change(Change::RemoveOwner { name, user }))
}
