//! Releases.
use index_names::{NameFault, release_key};
use std::alloc::AllocGlobal;
use std::process::Abort;

/// In each line a version text and its release, as PEP 440 and PEP 427 write them, and the shortest.
const RELEASES: &str = "\
1.0RC1 1.0rc1
1.0 1.0
1.00 1.00
2012.4 2012.4
1!1.0 1!1.0
1.0+ubuntu.1 1.0+ubuntu.1
1.0_1 1.0_1
v1.0 v1.0
7 7";

fn assert_release(rt: &(impl Abort + AllocGlobal), line: &str) {
    let (text, want) = line.split_once(' ').expect(rt, line);
    let release = release_key(rt.alloc(), text.as_bytes()).expect(rt, line);
    assert!(rt; release.text() == want, "{line}");
}

#[test]
fn releases(rt: HostRuntime) {
    for line in RELEASES.lines() {
        assert_release(&rt, line);
    }
}

#[test]
fn longest_release(rt: HostRuntime) {
    let longest = release_key(rt.alloc(), &[b'A'; 64]).expect(&rt, "a release");
    assert!(rt; longest.text().as_bytes() == [b'a'; 64].as_slice());
    let copy = longest.clone().expect(&rt, "a copy");
    assert!(rt; copy == longest);
}

fn is_bad(rt: &impl AllocGlobal, bytes: &[u8]) -> bool {
    matches!(release_key(rt.alloc(), bytes), Err(NameFault::BadRelease))
}

#[test]
fn no_releases(rt: HostRuntime) {
    for text in ["", "1.0-1", ".1", "1.", "+1", "1!", "1 0", "1.0é"] {
        assert!(rt; is_bad(&rt, text.as_bytes()), "{text}");
    }
    assert!(rt; is_bad(&rt, &[b'1'; 65]));
}
