//! Targets and their resources.
use super::{assert_message, site};
use index_message::Site;
use std::alloc::AllocGlobal;
use std::process::Abort;

/// A message of this method and target, with no body, has this text.
fn assert_target(rt: &(impl Abort + AllocGlobal), site: &Site, target: &str, text: &str) {
    let mut message = Vec::from_slice(rt.alloc(), target.as_bytes()).expect(rt, target);
    let end = message.extend_from_slice(b" HTTP/1.1\r\nContent-Length: 0\r\n\r\n");
    end.expect(rt, target);
    assert_message(rt, site, message.as_slice(), text);
}

/// The path ends before the first question mark.
#[test]
fn paths_end_before_a_question_mark(rt: HostRuntime) {
    let site = site(&rt);
    assert_target(&rt, &site, "GET /simple?x=/y", "GET Simple");
    assert_target(&rt, &site, "GET /simple/?", "GET Root");
    assert_target(&rt, &site, "GET /simple/Frob?a/?b", "GET Project Frob");
    assert_target(&rt, &site, "GET ?/simple/", "NoRoute");
}

/// In each line a method and a target that leads to nothing.
const NOWHERE: &str = "\
GET /nowhere
GET /
GET *
GET /Simple/
GET /simple//
GET /simple/frob/more
GET /names/
GET /requests/
GET /files/frob/../x
DELETE /nowhere";

#[test]
fn paths_to_nothing(rt: HostRuntime) {
    let site = site(&rt);
    for target in NOWHERE.lines() {
        assert_target(&rt, &site, target, "NoRoute");
    }
    assert_target(&rt, &site, "HEAD /nowhere", "NoRoute Head");
}

/// Segments are decoded once, and not parsed further.
#[test]
fn segments_are_decoded(rt: HostRuntime) {
    let site = site(&rt);
    let wheel = "GET /files/frob/frob-1.0%2Bx-py3-none-any.whl";
    let file = "GET File frob-1.0+x-py3-none-any.whl";
    assert_target(&rt, &site, wheel, file);
    let parents = "GET /files/frob/..%2F..%2Fetc";
    assert_target(&rt, &site, parents, "GET File ../../etc");
    assert_target(&rt, &site, "GET /simple/%zz", "GET Project %zz");
    assert_target(&rt, &site, "GET /simple/%46rob/", "GET ProjectPage Frob");
    assert_target(&rt, &site, "GET /names/%2541", "GET Name %41");
    assert_target(&rt, &site, "GET /simple/a+b", "GET Project a+b");
}

/// A file of another project is not found in this one. A name that is not a file name belongs to any project.
#[test]
fn files_of_other_projects(rt: HostRuntime) {
    let site = site(&rt);
    let other = "PUT /files/foo/foo-1-2.tar.gz";
    assert_target(&rt, &site, other, "NoRoute");
    let own = "PUT /files/foo-1/foo-1-2.tar.gz";
    assert_target(&rt, &site, own, "PUT File foo-1-2.tar.gz");
    let none = "PUT /files/foo/bar";
    assert_target(&rt, &site, none, "PUT File bar");
}

#[test]
fn methods_that_a_page_has_not(rt: HostRuntime) {
    let site = site(&rt);
    assert_target(&rt, &site, "DELETE /simple/", "BadMethod Reading");
    assert_target(&rt, &site, "POST /simple/frob/", "BadMethod Reading");
    assert_target(&rt, &site, "get /simple/", "BadMethod Reading");
}

#[test]
fn methods_that_other_paths_have_not(rt: HostRuntime) {
    let site = site(&rt);
    assert_target(&rt, &site, "POST /files/frob/x", "BadMethod Files");
    assert_target(&rt, &site, "GET /requests", "BadMethod Requests");
    assert_target(&rt, &site, "HEAD /requests", "BadMethod Requests Head");
}
