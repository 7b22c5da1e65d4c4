//! Reads and writes that fail.
use super::fakes::FailingWriter;
use super::{
    ACCEPTED, ALREADY, BYTES, CHARGED, CREATED, DELETE, FILE, PUT, assert_parts, claim_frob,
    new_site, tell,
};
use crate::tests::{Story, assert_story};
use index_caching::CachesAnswers;
use index_desk::Desk;
use index_http::IoEnd;
use index_message::Site;
use index_test_support::{ShortReader, ShortWriter, look};
use std::alloc::AllocGlobal;
use std::process::Abort;

/// A writer takes this front of the reply to a message and then none, or fails.
fn assert_cut<B: CachesAnswers>(
    rt: &(impl Abort + AllocGlobal),
    site: &Site,
    desk: &mut Desk<B>,
    message: &str,
    front: &str,
    fails: bool,
) {
    let mut writer = ShortWriter {
        taken: Vec::new(rt.alloc()),
        room: front.len(),
        at_a_time: usize::MAX,
        fails,
    };
    let ended = tell(rt, site, desk, message.as_bytes(), &mut writer);
    let is_front = writer.taken.as_slice() == front.as_bytes();
    drop(writer);
    assert!(rt; is_front, "{front}");
    assert!(rt;
        ended == Err(IoEnd::WriteFault(front.len() as u64)),
        "{front}"
    );
}

/// The upload was applied, and the file is deleted.
const STOOD: &[[&str; 2]] = &[[PUT, ALREADY], CHARGED, [DELETE, ACCEPTED]];

/// The reply to an upload is cut behind this front, by a writer that fails and by one that takes no byte.
fn cut_upload<B: CachesAnswers>(
    rt: &(impl Abort + AllocGlobal),
    site: &Site,
    desk: &mut Desk<B>,
    front: &str,
) {
    for fails in [true, false] {
        assert_cut(rt, site, desk, PUT, front, fails);
        assert_parts(rt, site, desk, &[STOOD], usize::MAX);
    }
}

/// The reply to an upload is cut in its first line and before it.
#[derive(Clone, Copy)]
struct CutUploads<'a> {
    site: &'a Site,
}

impl Story for CutUploads<'_> {
    fn run<R: Abort + AllocGlobal, B: CachesAnswers>(&self, rt: &R, desk: &mut Desk<B>) {
        claim_frob(rt, self.site, desk);
        cut_upload(rt, self.site, desk, "HTTP/1.1 2");
        cut_upload(rt, self.site, desk, "");
    }
}

#[test]
fn a_write_that_fails_leaves_the_upload(rt: HostRuntime) {
    let site = &new_site(&rt);
    assert_story(&rt, &CutUploads { site });
}

/// A wheel whose name has a plus sign, which is escaped in the path.
const WHEEL: &str = put!("/files/frob/frob-1.0%2Bx-py3-none-any.whl" "X-Index-Token: abc");

const WHEEL_STANDS: &[[&str; 2]] = &[
    CHARGED,
    [WHEEL, ALREADY],
    CHARGED,
    [
        look!("GET /files/frob/frob-1.0%2Bx-py3-none-any.whl"),
        BYTES,
    ],
];

/// The reply to the upload of the wheel is cut in its first line.
#[derive(Clone, Copy)]
struct CutWheel<'a> {
    site: &'a Site,
}

impl Story for CutWheel<'_> {
    fn run<R: Abort + AllocGlobal, B: CachesAnswers>(&self, rt: &R, desk: &mut Desk<B>) {
        claim_frob(rt, self.site, desk);
        assert_cut(rt, self.site, desk, WHEEL, "HTTP/1.1 2", true);
        assert_parts(rt, self.site, desk, &[WHEEL_STANDS], usize::MAX);
    }
}

#[test]
fn a_write_that_fails_leaves_the_wheel(rt: HostRuntime) {
    let site = &new_site(&rt);
    assert_story(&rt, &CutWheel { site });
}

/// The write after this many writes of the reply to an upload fails.
fn assert_write_fails<B: CachesAnswers>(
    rt: &(impl Abort + AllocGlobal),
    site: &Site,
    desk: &mut Desk<B>,
    writes: u64,
) {
    let mut writer = FailingWriter {
        taken: Vec::new(rt.alloc()),
        writes,
    };
    let ended = tell(rt, site, desk, PUT.as_bytes(), &mut writer);
    let is_front = CREATED.as_bytes().starts_with(writer.taken.as_slice());
    let count = writer.taken.len();
    drop(writer);
    assert!(rt; is_front, "{writes}");
    assert!(rt; ended == Err(IoEnd::WriteFault(count as u64)), "{writes}");
}

/// The reply is written in ten writes.
#[derive(Clone, Copy)]
struct FailWrites<'a> {
    site: &'a Site,
}

impl Story for FailWrites<'_> {
    fn run<R: Abort + AllocGlobal, B: CachesAnswers>(&self, rt: &R, desk: &mut Desk<B>) {
        claim_frob(rt, self.site, desk);
        for writes in 0..10 {
            assert_write_fails(rt, self.site, desk, writes);
            assert_parts(rt, self.site, desk, &[STOOD], usize::MAX);
        }
    }
}

#[test]
fn each_write_fails_in_turn(rt: HostRuntime) {
    let site = &new_site(&rt);
    assert_story(&rt, &FailWrites { site });
}

/// The first 120 bytes of the 168 of a page and its head.
const FRONT_OF_NAMES: &str =
    "HTTP/1.1 200 OK\r\nContent-Type: application/vnd.pypi.simple.v1+json\r\nContent-Length: 59\r\nConnection: close\r\n\r\n{\"meta\":{\"a";

const NAMES: &str = look!("GET /simple/" "Accept: application/vnd.pypi.simple.v1+json");

/// The reply with a page is cut in its text and in its first line, by either writer.
#[derive(Clone, Copy)]
struct CutPage<'a> {
    site: &'a Site,
}

impl Story for CutPage<'_> {
    fn run<R: Abort + AllocGlobal, B: CachesAnswers>(&self, rt: &R, desk: &mut Desk<B>) {
        claim_frob(rt, self.site, desk);
        assert_parts(rt, self.site, desk, &[FILE], usize::MAX);
        for front in [FRONT_OF_NAMES, "HTTP/1.1 2"] {
            assert_cut(rt, self.site, desk, NAMES, front, true);
            assert_cut(rt, self.site, desk, NAMES, front, false);
        }
    }
}

#[test]
fn a_page_is_cut(rt: HostRuntime) {
    assert_eq!(rt; FRONT_OF_NAMES.len(), 120);
    let site = &new_site(&rt);
    assert_story(&rt, &CutPage { site });
}

/// A read fails behind this front of a message. Nothing is written.
fn assert_read_fails<B: CachesAnswers>(
    rt: &(impl Abort + AllocGlobal),
    site: &Site,
    desk: &mut Desk<B>,
    front: &[u8],
) {
    let reader = ShortReader {
        rest: front,
        at_a_time: 1,
        fails: true,
    };
    let mut told = Vec::new(rt.alloc());
    let ended = tell(rt, site, desk, reader, &mut told);
    assert!(rt; told.is_empty());
    assert!(rt; ended == Err(IoEnd::ReadFault));
}

/// The upload whose message was cut was not applied.
#[derive(Clone, Copy)]
struct FailReads<'a> {
    site: &'a Site,
}

impl Story for FailReads<'_> {
    fn run<R: Abort + AllocGlobal, B: CachesAnswers>(&self, rt: &R, desk: &mut Desk<B>) {
        claim_frob(rt, self.site, desk);
        let message = PUT.as_bytes();
        for count in 0..message.len() {
            assert_read_fails(rt, self.site, desk, &message[..count]);
        }
        assert_parts(rt, self.site, desk, &[FILE], 1);
    }
}

#[test]
fn each_read_fails_in_turn(rt: HostRuntime) {
    let site = &new_site(&rt);
    assert_story(&rt, &FailReads { site });
}
