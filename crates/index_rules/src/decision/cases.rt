//! Requests on retention cases (PEP 541).
ghost use Rattle.std.specs.Prelude.{◌≡◌};
ghost use Rattle.index_rules.specs.declared.call.Request.TheVariants.{AnswerCase, CloseCase, OpenCase, RecordAttempt, Transfer};
ghost use Rattle.index_rules.specs.Results.{Returns};
ghost use Rattle.index_rules.specs.Texts.{AreEvidence};
ghost use Rattle.index_rules.specs.Verdict.{refusal_of};
ghost use Rattle.index_rules.specs.Effect.{new_case};
ghost use Rattle.index_rules.specs.Decided.{DecidesIn, is_candidate_seen};

use super::context::Context;
use super::{Decision, Stop};
use crate::answer::Refusal;
use crate::bytes::Bytes;
use crate::change::Change;
use crate::reading::{is_evidence, is_name, to_name, to_text};
use crate::records::CaseRecord;
use index_retention::{CaseFault, CaseKind, CaseState, Means, may_transfer, note};
use std::alloc::AllocError;

/// Opens a case on a held name, whose candidate is the caller. Refused, in this order, as BadName, BadText,
/// NoProject, CaseOpen, OwnerCandidate; never Already.
pub fn open_case(
    context: &Context<'_>,
    name: &Bytes,
    kind: CaseKind,
    contact: &Bytes,
    work: &Bytes,
    why: &Bytes,
) -> Result<Decision, Stop>
    ensures { DecidesIn context.now (OpenCase name.now kind contact.now work.now why.now) result }
{
    if !is_name(name) {
        return Err(Stop::Refused(Refusal::BadName));
    }
    if !is_evidence(contact) || !is_evidence(work) || !is_evidence(why) {
        return Err(Stop::Refused(Refusal::BadText));
    }
    if context.project().is_none() {
        return Err(Stop::Refused(Refusal::NoProject));
    }
    if context.view.case.is_some() {
        return Err(Stop::Refused(Refusal::CaseOpen));
    }
    if context.owns() {
        return Err(Stop::Refused(Refusal::OwnerCandidate));
    }
    let name = to_name(context.alloc, name)?;
    let case = opened_case(context, kind, contact, work, why)?;
    Ok(Decision::Change(Change::OpenCase { name, case }))
}

/// The record of a case that the caller just opened.
fn opened_case(
    context: &Context<'_>,
    kind: CaseKind,
    contact: &Bytes,
    work: &Bytes,
    why: &Bytes,
) -> Result<CaseRecord, AllocError>
    requires { AreEvidence contact.now work.now why.now }
    ensures { let user = context.now.caller.now.user in
        Returns result (new_case context.now.at user kind contact.now work.now why.now) }
{
    let candidate = context.caller.user.clone()?;
    let contact = to_text(context.alloc, contact)?;
    let work = to_text(context.alloc, work)?;
    let why = to_text(context.alloc, why)?;
    Ok(CaseRecord {
        kind,
        candidate,
        contact,
        work,
        why,
        opened: context.at,
        state: CaseState::new(),
    })
}

/// Records an attempt to reach the owner. Refused, in this order, as NotOffice, BadName, NoProject, NoCase,
/// AttemptsFull; never Already.
pub fn record_attempt(
    context: &Context<'_>,
    name: &Bytes,
    means: Means,
    sent: bool,
) -> Result<Decision, Stop>
    ensures { DecidesIn context.now (RecordAttempt name.now means sent) result }
{
    if !context.caller.office {
        return Err(Stop::Refused(Refusal::NotOffice));
    }
    if !is_name(name) {
        return Err(Stop::Refused(Refusal::BadName));
    }
    if context.project().is_none() {
        return Err(Stop::Refused(Refusal::NoProject));
    }
    let Some(case) = &context.view.case else {
        return Err(Stop::Refused(Refusal::NoCase));
    };
    let mut state = case.state;
    if note(&mut state, means, sent, context.at).is_err() {
        return Err(Stop::Refused(Refusal::AttemptsFull));
    }
    let name = to_name(context.alloc, name)?;
    let mut case = case.clone()?;
    case.state = state;
    Ok(Decision::Change(Change::RecordAttempt { name, case }))
}

/// Transfers a name to the candidate of its case. Refused, in this order, as NotOffice, BadName, NoProject, NoCase,
/// TooFewAttempts, TooEarly, RecentRelease, HomePageActive; never Already.
pub fn transfer(context: &Context<'_>, name: &Bytes, quiet: bool) -> Result<Decision, Stop>
    ensures { DecidesIn context.now (Transfer name.now quiet) result }
{
    if !context.caller.office {
        return Err(Stop::Refused(Refusal::NotOffice));
    }
    if !is_name(name) {
        return Err(Stop::Refused(Refusal::BadName));
    }
    let Some(project) = context.project() else {
        return Err(Stop::Refused(Refusal::NoProject));
    };
    let Some(case) = &context.view.case else {
        return Err(Stop::Refused(Refusal::NoCase));
    };
    if let Err(fault) = may_transfer(&case.state, project.last_upload(), quiet, context.at) {
        return Err(Stop::Refused(refusal_by(fault)));
    }
    let name = to_name(context.alloc, name)?;
    let candidate = case.candidate.clone()?;
    Ok(Decision::Change(Change::Transfer { name, candidate }))
}

/// The refusal for what prevents a transfer.
fn refusal_by(fault: CaseFault) -> Refusal
    ensures { result ≡ refusal_of fault }
{
    match fault {
        CaseFault::AttemptsFull => Refusal::AttemptsFull,
        CaseFault::TooFewAttempts => Refusal::TooFewAttempts,
        CaseFault::TooEarly => Refusal::TooEarly,
        CaseFault::RecentRelease => Refusal::RecentRelease,
        CaseFault::HomePageActive => Refusal::HomePageActive,
    }
}

/// Closes a case, for the office or its candidate. Refused, in this order, as NotOffice, BadName, NoProject,
/// NoCase; never Already.
pub fn close_case(context: &Context<'_>, name: &Bytes) -> Result<Decision, Stop>
    ensures { DecidesIn context.now (CloseCase name.now) result }
{
    if !context.caller.office && !is_candidate(context) {
        return Err(Stop::Refused(Refusal::NotOffice));
    }
    if !is_name(name) {
        return Err(Stop::Refused(Refusal::BadName));
    }
    if context.project().is_none() {
        return Err(Stop::Refused(Refusal::NoProject));
    }
    if context.view.case.is_none() {
        return Err(Stop::Refused(Refusal::NoCase));
    }
    let name = to_name(context.alloc, name)?;
    Ok(Decision::Change(Change::CloseCase { name }))
}

/// Whether the caller opened the case.
fn is_candidate(context: &Context<'_>) -> bool
    ensures { result ≡ is_candidate_seen context.now }
{
    match &context.view.case {
        Some(case) => case.candidate == context.caller.user,
        None => false,
    }
}

/// Answers a case for an owner, which ends it. Refused, in this order, as BadName, NoProject, NotOwner, NoCase; never
/// Already.
pub fn answer_case(context: &Context<'_>, name: &Bytes) -> Result<Decision, Stop>
    ensures { DecidesIn context.now (AnswerCase name.now) result }
{
    if !is_name(name) {
        return Err(Stop::Refused(Refusal::BadName));
    }
    if context.project().is_none() {
        return Err(Stop::Refused(Refusal::NoProject));
    }
    if !context.owns() {
        return Err(Stop::Refused(Refusal::NotOwner));
    }
    if context.view.case.is_none() {
        return Err(Stop::Refused(Refusal::NoCase));
    }
    let name = to_name(context.alloc, name)?;
    Ok(Decision::Change(Change::AnswerCase { name }))
}
