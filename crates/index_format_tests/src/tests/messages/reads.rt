//! Reads that fail.
use super::{assert_read, site};
use index_io::Input;
use index_message::{ReadEnd, Site, read_message};
use index_test_support::ShortReader;
use std::alloc::AllocGlobal;
use std::process::Abort;

const UPLOAD: &[u8] = b"PUT /files/frob/frob-1.0.tar.gz HTTP/1.1\r\nContent-Length: 3\r\n\r\nabc";

/// The upload in pieces of this size. A read fails after this many of them.
fn upload(size: usize, good_reads: usize) -> ShortReader<'static> {
    let count = UPLOAD.len().min(size.saturating_mul(good_reads));
    ShortReader {
        rest: &UPLOAD[..count],
        at_a_time: size,
        fails: true,
    }
}

/// A read fails after this many pieces of the upload, and is reported as such.
fn assert_fault(rt: &(impl Abort + AllocGlobal), site: &Site, size: usize, good_reads: usize) {
    let mut input = Input::new(upload(size, good_reads));
    let message = read_message(rt.alloc(), site, &mut input);
    let end = message.as_ref().err().copied();
    drop(message);
    assert!(rt; end == Some(ReadEnd::ReadFault));
}

/// Nothing is read beyond the body.
fn assert_whole(rt: &(impl Abort + AllocGlobal), site: &Site, size: usize, good_reads: usize) {
    let reader = upload(size, good_reads);
    assert_read(rt, site, reader, "PUT File frob-1.0.tar.gz abc");
}

#[test]
fn each_read_can_fail(rt: HostRuntime) {
    let site = site(&rt);
    for good_reads in 0..UPLOAD.len() {
        assert_fault(&rt, &site, 1, good_reads);
    }
    assert_whole(&rt, &site, 1, UPLOAD.len());
}

#[test]
fn each_read_of_larger_pieces_can_fail(rt: HostRuntime) {
    let site = site(&rt);
    let reads = UPLOAD.len().div_ceil(7);
    for good_reads in 0..reads {
        assert_fault(&rt, &site, 7, good_reads);
    }
    assert_whole(&rt, &site, 7, reads);
}
