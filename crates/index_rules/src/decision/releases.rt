//! Owners' requests on releases.
ghost use Rattle.std.specs.Prelude.{◌≡◌, Some, false};
ghost use Rattle.std.specs.Option.{option_map_or};
ghost use Rattle.index_rules.specs.declared.call.Request.TheVariants.{Unyank, Yank};
ghost use Rattle.index_rules.specs.Maps.{same};
ghost use Rattle.index_rules.specs.Decided.{DecidesIn};

use super::context::Context;
use super::{Decision, Stop};
use crate::answer::Refusal;
use crate::bytes::Bytes;
use crate::change::Change;
use crate::reading::{is_name, is_release, is_text, to_name, to_release, to_text};

/// Yanks a release for a reason (PEP 592). Refused, in this order, as BadName, BadRelease, BadText, NoProject,
/// NotOwner, NoRelease; Already if the release is yanked for this reason.
pub fn yank(
    context: &Context<'_>,
    name: &Bytes,
    release: &Bytes,
    reason: &Bytes,
) -> Result<Decision, Stop>
    ensures { DecidesIn context.now (Yank name.now release.now reason.now) result }
{
    if !is_name(name) {
        return Err(Stop::Refused(Refusal::BadName));
    }
    if !is_release(release) {
        return Err(Stop::Refused(Refusal::BadRelease));
    }
    if !is_text(reason) {
        return Err(Stop::Refused(Refusal::BadText));
    }
    if context.project().is_none() {
        return Err(Stop::Refused(Refusal::NoProject));
    }
    if !context.owns() {
        return Err(Stop::Refused(Refusal::NotOwner));
    }
    if !context.view.has_release {
        return Err(Stop::Refused(Refusal::NoRelease));
    }
    if is_yanked_for(context, reason) {
        return Ok(Decision::Already);
    }
    let name = to_name(context.alloc, name)?;
    let release = to_release(context.alloc, release)?;
    let reason = to_text(context.alloc, reason)?;
    Ok(Decision::Change(Change::Yank {
        name,
        release,
        reason,
    }))
}

/// Whether the release is yanked for exactly this reason.
fn is_yanked_for(context: &Context<'_>, reason: &Bytes) -> bool
    ensures { result ≡ option_map_or (same reason.now) context.now.view.now.yank false }
{
    match &context.view.yank {
        Some(before) => reason.as_slice() == before.as_str().as_bytes(),
        None => false,
    }
}

/// Takes the yank off a release (PEP 592). Refused, in this order, as BadName, BadRelease, NoProject, NotOwner,
/// NoRelease; Already if the release is not yanked.
pub fn unyank(context: &Context<'_>, name: &Bytes, release: &Bytes) -> Result<Decision, Stop>
    ensures { DecidesIn context.now (Unyank name.now release.now) result }
{
    if !is_name(name) {
        return Err(Stop::Refused(Refusal::BadName));
    }
    if !is_release(release) {
        return Err(Stop::Refused(Refusal::BadRelease));
    }
    if context.project().is_none() {
        return Err(Stop::Refused(Refusal::NoProject));
    }
    if !context.owns() {
        return Err(Stop::Refused(Refusal::NotOwner));
    }
    if !context.view.has_release {
        return Err(Stop::Refused(Refusal::NoRelease));
    }
    if context.view.yank.is_none() {
        return Ok(Decision::Already);
    }
    let name = to_name(context.alloc, name)?;
    let release = to_release(context.alloc, release)?;
    Ok(Decision::Change(Change::Unyank { name, release }))
}
