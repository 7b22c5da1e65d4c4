//! Names of projects.
use index_names::{NameFault, NormalName, is_name, normal};
use std::alloc::AllocGlobal;
use std::process::Abort;

/// In each line a name and its normal form: the spellings that the PyPA specification "Names and normalization" gives
/// for one project, PEP 503's project names, and the shortest names.
const NAMES: &str = "\
friendly-bard friendly-bard
Friendly-Bard friendly-bard
FRIENDLY-BARD friendly-bard
friendly.bard friendly-bard
friendly_bard friendly-bard
friendly--bard friendly-bard
FrIeNdLy-._.-bArD friendly-bard
frob frob
spamspamspam spamspamspam
a a
7 7
a..b a-b";

fn read(rt: &(impl Abort + AllocGlobal), text: &str) -> NormalName {
    normal(rt.alloc(), text.as_bytes()).expect(rt, text)
}

fn assert_normal(rt: &(impl Abort + AllocGlobal), line: &str) {
    let (spelling, want) = line.split_once(' ').expect(rt, line);
    assert!(rt; is_name(spelling.as_bytes()), "{line}");
    let name = read(rt, spelling);
    assert!(rt; name.text() == want, "{line}");
}

#[test]
fn normal_forms(rt: HostRuntime) {
    for line in NAMES.lines() {
        assert_normal(&rt, line);
    }
}

#[test]
fn longest_name(rt: HostRuntime) {
    let name = normal(rt.alloc(), &[b'A'; 128]).expect(&rt, "a name");
    assert!(rt; name.text().as_bytes() == [b'a'; 128].as_slice());
}

#[test]
fn two_spellings_are_equal(rt: HostRuntime) {
    assert!(rt; read(&rt, "Frob._-Nest") == read(&rt, "frob-nest"));
}

#[test]
fn a_copy_is_equal(rt: HostRuntime) {
    let name = read(&rt, "frob-nest");
    let copy = name.clone().expect(&rt, "a copy");
    assert!(rt; copy == name);
}

fn is_bad(rt: &impl AllocGlobal, bytes: &[u8]) -> bool {
    matches!(normal(rt.alloc(), bytes), Err(NameFault::BadName))
}

#[test]
fn no_names(rt: HostRuntime) {
    for text in ["", "-", "-a", "a-", ".a", "a_", "a b", "a/b", "a+b", "é"] {
        let is_refused = !is_name(text.as_bytes()) && is_bad(&rt, text.as_bytes());
        assert!(rt; is_refused, "{text}");
    }
    assert!(rt; is_bad(&rt, &[b'a'; 129]));
}
