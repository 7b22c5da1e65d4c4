//! Requests on a name and its quota.
ghost use Rattle.index_rules.specs.declared.call.Request.TheVariants.{Allow, Claim, Prohibit, Relinquish, SetQuota};
ghost use Rattle.index_rules.specs.Decided.{DecidesIn};

use super::context::Context;
use super::{Decision, Stop};
use crate::answer::Refusal;
use crate::bytes::Bytes;
use crate::change::Change;
use crate::project::{LARGEST_QUOTA, Project};
use crate::reading::{is_name, to_name, to_shown};
use crate::records::NameRecord;

/// Claims a free name for the caller. Refused, in this order, as BadName, NameProhibited, NameHeld; Already if the
/// caller owns the name.
pub fn claim(context: &Context<'_>, name: &Bytes) -> Result<Decision, Stop>
    ensures { DecidesIn context.now (Claim name.now) result }
{
    if !is_name(name) {
        return Err(Stop::Refused(Refusal::BadName));
    }
    let owns = context.owns();
    match &context.view.name {
        Some(NameRecord::Prohibited) => return Err(Stop::Refused(Refusal::NameProhibited)),
        Some(NameRecord::Held(_)) if !owns => return Err(Stop::Refused(Refusal::NameHeld)),
        _ => {}
    }
    if owns {
        return Ok(Decision::Already);
    }
    let project = Project::new(to_shown(context.alloc, name)?);
    let owner = context.caller.user.clone()?;
    let name = to_name(context.alloc, name)?;
    Ok(Decision::Change(Change::Claim {
        name,
        project,
        owner,
    }))
}

/// Sets the quota of a held name, in bytes. Refused, in this order, as NotOffice, BadName, QuotaTooLarge, NoProject,
/// QuotaBelowCharge; Already if the name has this quota.
pub fn set_quota(context: &Context<'_>, name: &Bytes, quota: u64) -> Result<Decision, Stop>
    ensures { DecidesIn context.now (SetQuota name.now quota) result }
{
    if !context.caller.office {
        return Err(Stop::Refused(Refusal::NotOffice));
    }
    if !is_name(name) {
        return Err(Stop::Refused(Refusal::BadName));
    }
    if quota > LARGEST_QUOTA {
        return Err(Stop::Refused(Refusal::QuotaTooLarge));
    }
    let Some(project) = context.project() else {
        return Err(Stop::Refused(Refusal::NoProject));
    };
    if quota < project.charge() {
        return Err(Stop::Refused(Refusal::QuotaBelowCharge));
    }
    if quota == project.quota() {
        return Ok(Decision::Already);
    }
    let project = project.with_quota(quota)?;
    let name = to_name(context.alloc, name)?;
    Ok(Decision::Change(Change::SetQuota { name, project }))
}

/// Gives up a held name, which becomes free. Refused, in this order, as BadName, NoProject, NotOwner, FilesRemain;
/// never Already.
pub fn relinquish(context: &Context<'_>, name: &Bytes) -> Result<Decision, Stop>
    ensures { DecidesIn context.now (Relinquish name.now) result }
{
    if !is_name(name) {
        return Err(Stop::Refused(Refusal::BadName));
    }
    let Some(project) = context.project() else {
        return Err(Stop::Refused(Refusal::NoProject));
    };
    if !context.owns() {
        return Err(Stop::Refused(Refusal::NotOwner));
    }
    if project.undeleted() > 0 {
        return Err(Stop::Refused(Refusal::FilesRemain));
    }
    let name = to_name(context.alloc, name)?;
    Ok(Decision::Change(Change::Relinquish { name }))
}

/// Prohibits a name, held or free. Refused, in this order, as NotOffice, BadName; Already if it is prohibited.
pub fn prohibit(context: &Context<'_>, name: &Bytes) -> Result<Decision, Stop>
    ensures { DecidesIn context.now (Prohibit name.now) result }
{
    if !context.caller.office {
        return Err(Stop::Refused(Refusal::NotOffice));
    }
    if !is_name(name) {
        return Err(Stop::Refused(Refusal::BadName));
    }
    if let Some(NameRecord::Prohibited) = &context.view.name {
        return Ok(Decision::Already);
    }
    let name = to_name(context.alloc, name)?;
    Ok(Decision::Change(Change::Prohibit { name }))
}

/// Frees a prohibited name. Refused, in this order, as NotOffice, BadName; Already if the name is not prohibited.
pub fn allow(context: &Context<'_>, name: &Bytes) -> Result<Decision, Stop>
    ensures { DecidesIn context.now (Allow name.now) result }
{
    if !context.caller.office {
        return Err(Stop::Refused(Refusal::NotOffice));
    }
    if !is_name(name) {
        return Err(Stop::Refused(Refusal::BadName));
    }
    let Some(NameRecord::Prohibited) = &context.view.name else {
        return Ok(Decision::Already);
    };
    let name = to_name(context.alloc, name)?;
    Ok(Decision::Change(Change::Allow { name }))
}
