//! The statement that puts an open case.
ghost use Rattle.std.specs.Prelude.{◌≡◌, IfErr, IfOk, OnOk};
ghost use Rattle.index_retention.specs.Attempts.{IsTally};
ghost use Rattle.index_sql_schema.specs.OnStore.{on_store};
ghost use Rattle.index_sql_writes.specs.Asks.{HasTooMuch, IsOutOfRange};
ghost use Rattle.index_sql_writes.specs.Steps.{StepPuts};
ghost use Rattle.index_sql_writes.specs.declared.step.Put.{Put};
ghost use Rattle.index_sql_writes.specs.Writes.{kind_number};
ghost use Rattle.index_sql_writes.specs.Statements.{case_numbers, integers_of};

use crate::statements::{run_statement, sql_integer, sql_integer_if_any};
use index_names::NormalName;
use index_retention::CaseKind;
use index_rules::CaseRecord;
use index_sql_schema::statement_texts::PUT_CASE;
use sqlite::{Alter, Error, Transaction, params};

/// The columns of a case besides its texts, as SQL holds them.
#[derive(Clone, Copy)]
struct CaseNumbers {
    kind: i64,
    opened: i64,
    attempts: i64,
    sent: i64,
    profile: bool,
    author: bool,
    pages: bool,
    first: Option<i64>,
}

/// The name has this open case.
pub(crate) fn put_case<S: Alter>(
    tx: &mut Transaction<'_, S>,
    name: &NormalName,
    case: &CaseRecord,
) -> Result<(), Error>
    ensures { StepPuts (Put.Case name.entry case.entry) (on_store S.Store tx.old tx.new) result }
{
    let numbers = numbers_of(case)?;
    run_statement(
        tx,
        PUT_CASE,
        params![
            name.text(),
            numbers.kind,
            case.candidate.text(),
            case.contact.as_str(),
            case.work.as_str(),
            case.why.as_str(),
            numbers.opened,
            numbers.attempts,
            numbers.sent,
            numbers.profile,
            numbers.author,
            numbers.pages,
            numbers.first
        ],
    )
}

/// The columns of a case besides its texts. `IntegralValueOutOfRange` if one is more than SQL can hold.
fn numbers_of(case: &CaseRecord) -> Result<CaseNumbers, Error>
    ensures numbers { IfOk result (λ it. it ≡ integers_of case.now) }
    ensures tally { let it = case.now.state in OnOk result (IsTally it.attempts it.sent it.first) }
    ensures too_much { IfErr result (IsOutOfRange (HasTooMuch (case_numbers case.now))) }
{
    let state = &case.state;
    let opened = sql_integer(case.opened)?;
    let attempts = sql_integer(state.attempts())?;
    let sent = sql_integer(state.sent())?;
    let first = sql_integer_if_any(state.first())?;
    Ok(CaseNumbers {
        kind: number_of(case.kind),
        opened,
        attempts,
        sent,
        profile: state.profile(),
        author: state.author(),
        pages: state.pages(),
        first,
    })
}

/// The kind as the tables have it.
fn number_of(kind: CaseKind) -> i64
    ensures { result ≡ kind_number kind }
{
    match kind {
        CaseKind::Continue => 1,
        CaseKind::Reuse => 2,
    }
}
