//! Changes of cases.
use crate::tests::{name, text, user};
use index_retention::{CaseKind, CaseState, Means, note};
use index_rules::{CaseRecord, Change};
use std::alloc::AllocGlobal;
use std::process::Abort;

/// A case that bob opened.
fn case(rt: &(impl Abort + AllocGlobal), state: CaseState) -> CaseRecord {
    CaseRecord {
        kind: CaseKind::Continue,
        candidate: user(rt, "bob"),
        contact: text(rt, "three mails"),
        work: text(rt, "a fork"),
        why: text(rt, "its users"),
        opened: 1,
        state,
    }
}

pub(super) fn open_case(rt: &(impl Abort + AllocGlobal), text: &str) -> Change {
    Change::OpenCase {
        name: name(rt, text),
        case: case(rt, CaseState::new()),
    }
}

/// The first attempt of a case.
pub(super) fn record_attempt(rt: &(impl Abort + AllocGlobal), text: &str) -> Change {
    let mut state = CaseState::new();
    note(&mut state, Means::Profile, true, 2).expect(rt, text);
    Change::RecordAttempt {
        name: name(rt, text),
        case: case(rt, state),
    }
}

pub(super) fn transfer(rt: &(impl Abort + AllocGlobal), text: &str, candidate: &str) -> Change {
    Change::Transfer {
        name: name(rt, text),
        candidate: user(rt, candidate),
    }
}
