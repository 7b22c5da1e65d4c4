//! The text of a standing.
//!
//! Functions that own nothing put the members of an object into a map, and one place makes the object of it: so no exit
//! has a map to drop.
ghost use Rattle.std.specs.Prelude.{◌≡◌, IfOk, Ok, string_bytes};
ghost use Rattle.serde_json.specs.Data.{object, put as put_lem, string};
ghost use Rattle.serde_json.specs.View.{members_view, view};
ghost use Rattle.index_rules.specs.Memory.{OkOrNoMemory};
ghost use Rattle.index_json.specs.StandingText.{PutsMembers, case_value as case_value_lem, case_texts_put, case_put, held_put, kind_text as kind_text_lem, means_put, name_put, open_case_value as open_case_value_lem, project_put, standing_put, standing_text_of, standing_value as standing_value_lem, text_array, times_put};

use index_names::NormalName;
use index_retention::{CaseKind, CaseState};
use index_rules::{CaseRecord, Fault, HeldName, Project, Standing, UserId};
use serde_json::{Map, Value, put};
use std::alloc::{AllocError, Global};

/// The standing as compact JSON, with keys in byte order.
///
/// # Errors
///
/// `OutOfMemory`.
pub fn standing_text(alloc: Global, standing: &Standing) -> Result<String, Fault>
    ensures text { OkOrNoMemory result (λ text. string_bytes text ≡ standing_text_of standing.now) }
{
    let value = standing_value(alloc, standing)?;
    let text = value.to_string(alloc);
    drop(value);
    Ok(text?)
}

/// The object of a standing.
fn standing_value(alloc: Global, standing: &Standing) -> Result<Value, AllocError>
    ensures { IfOk result (λ value. view value ≡ standing_value_lem standing.now) }
{
    let mut members = Map::new(alloc);
    let done = put_standing(&mut members, alloc, standing);
    object_of(members, done)
}

/// The object of these members, if all were put.
fn object_of(members: Map<String, Value>, done: Result<(), AllocError>) -> Result<Value, AllocError>
    ensures { IfOk result (λ value. (done ≡ Ok tt)
        × (view value ≡ object (members_view members.entries))) }
{
    match done {
        Ok(()) => Ok(Value::Object(members)),
        Err(error) => {
            drop(members);
            Err(error)
        }
    }
}

/// Puts the members of a standing, by the state of its name.
fn put_standing(
    members: &mut Map<String, Value>,
    alloc: Global,
    standing: &Standing,
) -> Result<(), AllocError>
    ensures { PutsMembers members.old members.new result (standing_put standing.now) }
{
    match standing {
        Standing::Free { name } => put_name(members, alloc, name, "free"),
        Standing::Prohibited { name } => put_name(members, alloc, name, "prohibited"),
        Standing::Held(held) => put_held(members, alloc, held),
    }
}

/// Puts the members that each standing has: the name and its state.
fn put_name(
    members: &mut Map<String, Value>,
    alloc: Global,
    name: &NormalName,
    state: &str,
) -> Result<(), AllocError>
    ensures { PutsMembers members.old members.new result (name_put name.now state.now) }
{
    put_text(members, alloc, "name", name.text())?;
    put_text(members, alloc, "state", state)
}

/// Puts the members of a held name.
fn put_held(
    members: &mut Map<String, Value>,
    alloc: Global,
    held: &HeldName,
) -> Result<(), AllocError>
    ensures { PutsMembers members.old members.new result (held_put held.now) }
{
    put(members, alloc, "case", case_value(alloc, &held.case)?)?;
    put(
        members,
        alloc,
        "owners",
        owners_value(alloc, held.owners.as_slice())?,
    )?;
    put_project(members, alloc, &held.project)?;
    put_name(members, alloc, &held.name, "held")
}

/// Puts the charge, the quota and the display name of a held name.
fn put_project(
    members: &mut Map<String, Value>,
    alloc: Global,
    project: &Project,
) -> Result<(), AllocError>
    ensures { PutsMembers members.old members.new result (project_put project.now) }
{
    put(members, alloc, "charge", Value::from(project.charge()))?;
    put(members, alloc, "quota", Value::from(project.quota()))?;
    put_text(members, alloc, "shown", project.shown().as_str())
}

/// Puts a text at a key.
fn put_text(
    members: &mut Map<String, Value>,
    alloc: Global,
    key: &str,
    text: &str,
) -> Result<(), AllocError>
    ensures { PutsMembers members.old members.new result (put_lem key.now (string text.now)) }
{
    put(members, alloc, key, Value::try_from_str(alloc, text)?)
}

/// The array of the owners' ids.
fn owners_value(alloc: Global, owners: &[UserId]) -> Result<Value, AllocError>
    ensures { IfOk result (λ value. view value ≡ text_array owners.now) }
{
    let mut texts = Vec::new(alloc);
    for owner in owners {
        texts.push(Value::try_from_str(alloc, owner.text())?)?;
    }
    Ok(Value::Array(texts))
}

/// The object of the open case, or `null` if none is open.
fn case_value(alloc: Global, case: &Option<CaseRecord>) -> Result<Value, AllocError>
    ensures { IfOk result (λ value. view value ≡ case_value_lem case.now) }
{
    match case {
        Some(case) => open_case_value(alloc, case),
        None => Ok(Value::Null),
    }
}

/// The object of a case.
fn open_case_value(alloc: Global, case: &CaseRecord) -> Result<Value, AllocError>
    ensures { IfOk result (λ value. view value ≡ open_case_value_lem case.now) }
{
    let mut members = Map::new(alloc);
    let done = put_case(&mut members, alloc, case);
    object_of(members, done)
}

/// Puts the members of a case.
fn put_case(
    members: &mut Map<String, Value>,
    alloc: Global,
    case: &CaseRecord,
) -> Result<(), AllocError>
    ensures { PutsMembers members.old members.new result (case_put case.now) }
{
    put_means(members, alloc, &case.state)?;
    put_times(members, alloc, case)?;
    put_case_texts(members, alloc, case)
}

/// Puts the means that had an attempt.
fn put_means(
    members: &mut Map<String, Value>,
    alloc: Global,
    state: &CaseState,
) -> Result<(), AllocError>
    ensures { PutsMembers members.old members.new result (means_put state.now) }
{
    put(members, alloc, "author", Value::Bool(state.author()))?;
    put(members, alloc, "pages", Value::Bool(state.pages()))?;
    put(members, alloc, "profile", Value::Bool(state.profile()))
}

/// Puts the number of attempts of a case, and its moments.
fn put_times(
    members: &mut Map<String, Value>,
    alloc: Global,
    case: &CaseRecord,
) -> Result<(), AllocError>
    ensures { PutsMembers members.old members.new result (times_put case.now) }
{
    put(
        members,
        alloc,
        "attempts",
        Value::from(case.state.attempts()),
    )?;
    put(members, alloc, "first", Value::from(case.state.first()))?;
    put(members, alloc, "opened", Value::from(case.opened))?;
    put(members, alloc, "sent", Value::from(case.state.sent()))
}

/// Puts the kind of a case, the candidate and the case's three texts.
fn put_case_texts(
    members: &mut Map<String, Value>,
    alloc: Global,
    case: &CaseRecord,
) -> Result<(), AllocError>
    ensures { PutsMembers members.old members.new result (case_texts_put case.now) }
{
    put_text(members, alloc, "candidate", case.candidate.text())?;
    put_text(members, alloc, "contact", case.contact.as_str())?;
    put_text(members, alloc, "kind", kind_text(case.kind))?;
    put_text(members, alloc, "why", case.why.as_str())?;
    put_text(members, alloc, "work", case.work.as_str())
}

/// The word for the kind of a case.
fn kind_text(kind: CaseKind) -> &'static str
    ensures { result.now ≡ kind_text_lem kind }
{
    match kind {
        CaseKind::Continue => "continue",
        CaseKind::Reuse => "reuse",
    }
}
