//! Many messages in a row.
use super::{
    ACCEPTED, ALREADY, BYTES, CHARGED, CREATED, DELETE, FROB, GET, NO_FILE, PUT, USERS,
    assert_parts, new_site,
};
use crate::tests::{Story, assert_story};
use index_caching::CachesAnswers;
use index_desk::Desk;
use index_message::Site;
use index_test_support::{look, names_json, project_json};
use std::alloc::AllocGlobal;
use std::process::Abort;

/// A file is uploaded, read in each way, and deleted. The second read of a page or a file is answered from the cache,
/// if the books have one.
const ROUND: &[[&str; 2]] = &[
    [PUT, CREATED],
    [PUT, ALREADY],
    CHARGED,
    [NAMES, NAMES_IN_JSON],
    [NAMES, NAMES_IN_JSON],
    [PROJECT, PROJECT_WITH_FILE],
    [PROJECT, PROJECT_WITH_FILE],
    [GET, BYTES],
    [GET, BYTES],
    [DELETE, ACCEPTED],
    [DELETE, ALREADY],
    [PROJECT, PROJECT_WITHOUT_FILES],
    [PROJECT, PROJECT_WITHOUT_FILES],
    [GET, NO_FILE],
    [NAMES, NAMES_IN_JSON],
];

pub(super) const NAMES: &str = look!("GET /simple/" "Accept: application/vnd.pypi.simple.v1+json");

pub(super) const NAMES_IN_JSON: &str = names_json!(["59"] r#"{"name":"frob"}"#);

pub(super) const PROJECT: &str =
    look!("GET /simple/frob/" "Accept: application/vnd.pypi.simple.v1+json");

pub(super) const PROJECT_WITH_FILE: &str =
    project_json!(["236"] r#"{"filename":"frob-1.0.tar.gz","hashes":{"sha256":"ba7816bf8f01cfea414140de5dae2223b00361a396177a9cb410ff61f20015ad"},"size":3,"url":"/files/frob/frob-1.0.tar.gz"}"#,
        "frob",
        r#""1.0""#);

const PROJECT_WITHOUT_FILES: &str = project_json!(["69"] "", "frob", "");

/// A hundred times, each answered by the rules, however many came before.
#[derive(Clone, Copy)]
struct LookAndChange<'a> {
    site: &'a Site,
}

impl Story for LookAndChange<'_> {
    fn run<R: Abort + AllocGlobal, B: CachesAnswers>(&self, rt: &R, desk: &mut Desk<B>) {
        assert_parts(rt, self.site, desk, &[USERS, FROB], usize::MAX);
        for _ in 0..100 {
            assert_parts(rt, self.site, desk, &[ROUND], usize::MAX);
        }
    }
}

#[test]
fn no_message_gives_up_without_a_cause(rt: HostRuntime) {
    let site = &new_site(&rt);
    assert_story(&rt, &LookAndChange { site });
}
