//! Decisions, from the view of a call's keys.
use super::requests::{call_by, claim, yank};
use super::user;
use index_rules::{
    Call, Caller, Change, Decision, NameRecord, Owners, Refusal, Stop, View, decide,
};
use std::alloc::{AllocGlobal, Global};
use std::process::Abort;

/// The view of a call by ann, who is not of the office, on a name that has this record and no owner.
fn view_of(rt: &(impl Abort + AllocGlobal), name: Option<NameRecord>) -> View {
    View {
        caller: Some(Caller {
            user: user(rt, "ann"),
            office: false,
        }),
        user: None,
        bearer: None,
        name,
        owners: Owners::new(Vec::new(rt.alloc())),
        file: None,
        is_banned: false,
        yank: None,
        has_release: false,
        case: None,
    }
}

/// Why a call is refused, or `None` if it is not.
fn refusal_of(alloc: Global, call: Call, view: &View) -> Option<Refusal> {
    let decision = decide(alloc, call, view);
    let refusal = match &decision {
        Err(Stop::Refused(refusal)) => Some(*refusal),
        _ => None,
    };
    drop(decision);
    refusal
}

/// A yank of a name that is not held is refused: because of its reason if that is not a valid text, else because of its
/// name.
fn assert_refusal(rt: &(impl Abort + AllocGlobal), reason: &[u8], want: Refusal) {
    let view = view_of(rt, None);
    let call = call_by("abc", yank(rt, reason));
    let refusal = refusal_of(rt.alloc(), call, &view);
    assert!(rt; refusal == Some(want), "{reason:?}");
}

#[test]
fn texts_have_no_controls(rt: HostRuntime) {
    for text in ["", ">=3.8, <4", "\u{20}\u{7e}\u{a0}é"] {
        assert_refusal(&rt, text.as_bytes(), Refusal::NoProject);
    }
    for text in ["\u{0}", "a\u{1f}", "\u{7f}a", "a\u{80}", "\u{9f}"] {
        assert_refusal(&rt, text.as_bytes(), Refusal::BadText);
    }
}

#[test]
fn texts_are_short_and_utf8(rt: HostRuntime) {
    assert_refusal(&rt, &[b'a'; 512], Refusal::NoProject);
    assert_refusal(&rt, &[b'a'; 513], Refusal::BadText);
    assert_refusal(&rt, b"\xff", Refusal::BadText);
}

#[test]
fn a_claim_of_a_prohibited_name_is_refused(rt: HostRuntime) {
    let view = view_of(&rt, Some(NameRecord::Prohibited));
    let call = call_by("abc", claim(&rt, "frob"));
    let refusal = refusal_of(rt.alloc(), call, &view);
    assert!(rt; refusal == Some(Refusal::NameProhibited));
}

/// Whether a decision is ann's claim of `frob`.
fn is_claim(decision: &Result<Decision, Stop>) -> bool {
    match decision {
        Ok(Decision::Change(Change::Claim { name, owner, .. })) => {
            name.text() == "frob" && owner.text() == "ann"
        }
        _ => false,
    }
}

#[test]
fn a_claim_of_a_free_name_is_a_change(rt: HostRuntime) {
    let view = view_of(&rt, None);
    let call = call_by("abc", claim(&rt, "Frob"));
    let decision = decide(rt.alloc(), call, &view);
    let is_change = is_claim(&decision);
    drop(decision);
    assert!(rt; is_change);
}
