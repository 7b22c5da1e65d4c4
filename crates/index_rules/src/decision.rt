//! The decision on a call.
ghost use Rattle.std.specs.Prelude.{◌≡◌, false};
ghost use Rattle.index_rules.specs.Tables.{Tables};
ghost use Rattle.index_rules.specs.Requests.{is_upload, keys_of};
ghost use Rattle.index_rules.specs.Facts.{HasOneBearer, Sees, facts_in, facts_seen};
ghost use Rattle.index_rules.specs.Decided.{DecidesBy, DecidesIn};

use crate::answer::Refusal;
use crate::call::{Call, Request};
use crate::change::Change;
use crate::view::View;
use cases::{answer_case, close_case, open_case, record_attempt, transfer};
use context::Context;
use files::{ban_file, delete, upload};
use names::{allow, claim, prohibit, relinquish, set_quota};
use owners::{add_owner, remove_owner};
use releases::{unyank, yank};
use std::alloc::{AllocError, Global};
use users::{add_user, set_token};

mod cases;
mod context;
mod files;
mod names;
mod owners;
mod releases;
mod users;

/// The last moment of a call, in Unix seconds: the end of the year 9999.
const LAST_MOMENT: u64 = 253_402_300_799;

/// The outcome of a call that is not refused.
#[derive(Drop)]
pub enum Decision {
    Already,
    Change(Change),
}

/// Why a call stops at its decision.
#[derive(Clone, Copy, Debug, PartialEq, Eq, Hash)]
pub enum Stop {
    Refused(Refusal),
    OutOfMemory,
}

impl From<AllocError> for Stop {
    ghost use Rattle.index_rules.specs.declared.decision.Stop.TheVariants.{OutOfMemory};

    ghost from_gives = { λ _ stop. stop ≡ OutOfMemory };

    fn from(_error: AllocError) -> Stop {
        Stop::OutOfMemory
    }
}

/// The decision on a call by the records that its keys name: `Already` if the tables are as the request asks, else the
/// change that the call makes.
///
/// # Errors
///
/// `Refused` with the least refusal that applies, or `OutOfMemory`.
pub fn decide(alloc: Global, call: Call, view: &View) -> Result<Decision, Stop>
    // By the facts in the view, the decision is the verdict, and the change is the effect.
    ensures seen { DecidesBy call (facts_seen view.now call.request) result }

    // On all tables with that view, the decision is the verdict on them, and the change is the effect there.
    ensures tables { (T : Tables) → HasOneBearer T → Sees T (keys_of call) view.now
        → DecidesBy call (facts_in T call) result }
{
    judge(alloc, call, view)
}

/// The decision on a call: its moment and its token are judged before its request.
fn judge(alloc: Global, call: Call, view: &View) -> Result<Decision, Stop>
    ensures { DecidesBy call (facts_seen view.now call.request) result }
{
    if call.at > LAST_MOMENT {
        drop(call);
        return Err(Stop::Refused(Refusal::BadMoment));
    }
    let Some(caller) = &view.caller else {
        drop(call);
        return Err(Stop::Refused(Refusal::BadToken));
    };
    let context = Context {
        alloc,
        at: call.at,
        caller,
        view,
    };
    decide_in(&context, call.request)
}

/// The decision on a request whose moment and token are valid. An upload's body moves on into its change.
fn decide_in(context: &Context<'_>, request: Request) -> Result<Decision, Stop>
    ensures { DecidesIn context.now request result }
{
    match request {
        Request::Upload {
            file,
            sha256,
            body,
            requires_python,
        } => upload(context, &file, &sha256, body, &requires_python),
        request => {
            let decision = decide_on(context, &request);
            drop(request);
            decision
        }
    }
}

/// The decision on a request that is not an upload.
fn decide_on(context: &Context<'_>, request: &Request) -> Result<Decision, Stop>
    requires no_upload { is_upload request.now ≡ false }
    ensures { DecidesIn context.now request.now result }
{
    match request {
        Request::AddUser {
            user,
            office,
            token,
        } => add_user(context, user, *office, token),
        Request::SetToken { user, token } => set_token(context, user, token),
        Request::SetQuota { name, quota } => set_quota(context, name, *quota),
        Request::Claim { name } => claim(context, name),
        Request::AddOwner { name, user } => add_owner(context, name, user),
        Request::RemoveOwner { name, user } => remove_owner(context, name, user),
        // `decide_in` sends no upload here: one match over all requests would cost the prover more.
        Request::Upload { .. } => unreachable!(),
        Request::Delete { file } => delete(context, file),
        Request::BanFile { file } => ban_file(context, file),
        Request::Yank {
            name,
            release,
            reason,
        } => yank(context, name, release, reason),
        Request::Unyank { name, release } => unyank(context, name, release),
        Request::Relinquish { name } => relinquish(context, name),
        Request::Prohibit { name } => prohibit(context, name),
        Request::Allow { name } => allow(context, name),
        Request::OpenCase {
            name,
            kind,
            contact,
            work,
            why,
        } => open_case(context, name, *kind, contact, work, why),
        Request::RecordAttempt { name, means, sent } => {
            record_attempt(context, name, *means, *sent)
        }
        Request::Transfer { name, quiet } => transfer(context, name, *quiet),
        Request::CloseCase { name } => close_case(context, name),
        Request::AnswerCase { name } => answer_case(context, name),
    }
}
