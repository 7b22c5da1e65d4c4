//! Which results `write_bytes` and `write_pieces` return, which no clause says.
use index_io::{Output, write_bytes, write_pieces};
use index_test_support::ShortWriter;
use std::alloc::AllocGlobal;
use std::process::Abort;

/// Exactly these bytes of a text are written: the write succeeds if they are all, and else returns their number.
fn assert_taken(
    rt: &(impl Abort + AllocGlobal),
    text: &str,
    room: usize,
    at_a_time: usize,
    fails: bool,
    taken: &str,
) {
    let mut output = Output::new(ShortWriter {
        taken: Vec::new(rt.alloc()),
        room,
        at_a_time,
        fails,
    });
    let ended = write_bytes(&mut output, text.as_bytes());
    let is_taken = output.writer.taken.as_slice() == taken.as_bytes();
    assert!(rt; is_taken && ended == end_of(text, taken));
}

/// The result of a write that took these bytes of a text.
fn end_of(text: &str, taken: &str) -> Result<(), usize> {
    if taken == text {
        Ok(())
    } else {
        Err(taken.len())
    }
}

#[test]
fn bytes_go_out_as_far_as_they_are_taken(rt: HostRuntime) {
    assert_taken(&rt, "accepted", 100, 100, true, "accepted");
    assert_taken(&rt, "accepted", 8, 1, true, "accepted");
    assert_taken(&rt, "accepted", 5, 100, false, "accep");
    assert_taken(&rt, "accepted", 5, 1, true, "accep");
    assert_taken(&rt, "accepted", 0, 1, false, "");
    assert_taken(&rt, "", 0, 1, true, "");
}

/// Exactly these bytes of the pieces `no`, an empty one and `record` are written, as in `assert_taken`.
fn assert_pieces_taken(
    rt: &(impl Abort + AllocGlobal),
    room: usize,
    at_a_time: usize,
    fails: bool,
    taken: &str,
) {
    let mut output = Output::new(ShortWriter {
        taken: Vec::new(rt.alloc()),
        room,
        at_a_time,
        fails,
    });
    let ended = write_pieces(&mut output, &[b"no".as_slice(), b"", b"record"]);
    let is_taken = output.writer.taken.as_slice() == taken.as_bytes();
    let wanted = if taken == "norecord" {
        Ok(())
    } else {
        Err(taken.len() as u64)
    };
    assert!(rt; is_taken && ended == wanted);
}

#[test]
fn pieces_go_out_as_far_as_they_are_taken(rt: HostRuntime) {
    assert_pieces_taken(&rt, 100, 100, true, "norecord");
    assert_pieces_taken(&rt, 8, 1, true, "norecord");
    assert_pieces_taken(&rt, 5, 100, false, "norec");
    assert_pieces_taken(&rt, 2, 1, true, "no");
    assert_pieces_taken(&rt, 1, 100, false, "n");
    assert_pieces_taken(&rt, 0, 1, false, "");
}
