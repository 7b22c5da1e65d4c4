//! User ids, tokens, and the other values of the rules.
use super::{OF_ABC, OF_NOTHING, token, user};
use index_rules::{
    Bytes, OpenFault, Owners, UserFault, UserId, UserRecord, first_user, read_token,
};
use std::alloc::{AllocGlobal, Global};
use std::process::Abort;

/// User ids, the last of 32 bytes.
const USERS: &str = "\
a
0
alice
az09
abcdefghijklmnopqrstuvwxyz012345";

/// In each line a text that is not a user id. The first is empty, and the next has 33 bytes.
const NO_USERS: &str = "
abcdefghijklmnopqrstuvwxyz0123456
Alice
alicE
-
a-b
a b
é
`
{
/
:";

/// Whether a text is read as a user id, which then has that text.
fn is_user(rt: &(impl Abort + AllocGlobal), text: &str) -> bool {
    match UserId::read(rt.alloc(), text.as_bytes()) {
        Ok(user) => user.text() == text,
        Err(UserFault::BadUser) => false,
        Err(UserFault::OutOfMemory) => panic!(rt; "out of memory"),
    }
}

fn assert_users(rt: &(impl Abort + AllocGlobal), texts: &str, are_users: bool) {
    for text in texts.lines() {
        assert!(rt; is_user(rt, text) == are_users, "{text}");
    }
}

#[test]
fn user_ids_are_lower_case_letters_and_digits(rt: HostRuntime) {
    assert_users(&rt, USERS, true);
    assert_users(&rt, NO_USERS, false);
    assert!(rt; !is_user(&rt, "a\n"));
}

/// In each line a text that is not the digest of a token. The first is empty.
const NO_TOKENS: &str = "
BA7816BF8F01CFEA414140DE5DAE2223B00361A396177A9CB410FF61F20015AD
ba7816bf8f01cfea414140de5dae2223b00361a396177a9cb410ff61f20015a";

#[test]
fn tokens_are_digests_in_lower_case(rt: HostRuntime) {
    assert!(rt; read_token(OF_ABC.as_bytes()) == Some(token("abc")));
    assert!(rt; read_token(OF_NOTHING.as_bytes()).is_none());
    for text in NO_TOKENS.lines() {
        assert!(rt; read_token(text.as_bytes()).is_none(), "{text}");
    }
}

/// Whether a record is that of the office, with the token `office`.
fn is_of_the_office(record: UserRecord) -> bool {
    record.office && record.token == token("office")
}

#[test]
fn the_first_user_is_of_the_office(rt: HostRuntime) {
    let first = first_user(rt.alloc(), b"office", token("office"));
    let (user, record) = first.expect(&rt, "the first user");
    assert!(rt; user.text() == "office" && is_of_the_office(record));
}

/// Whether this user, with this text for a token, is refused as the first.
fn is_bad_first_user(alloc: Global, user: &[u8], text: &str) -> bool {
    matches!(
        first_user(alloc, user, token(text)),
        Err(OpenFault::BadFirstUser)
    )
}

#[test]
fn a_bad_first_user_is_refused(rt: HostRuntime) {
    assert!(rt; is_bad_first_user(rt.alloc(), b"Office", "office"));
    assert!(rt; is_bad_first_user(rt.alloc(), b"", "office"));
    assert!(rt; is_bad_first_user(rt.alloc(), b"office", ""));
}

#[test]
fn bytes_come_back_as_they_went_in(rt: HostRuntime) {
    let bytes = Bytes::copy_of(rt.alloc(), b"Flask\xff").expect(&rt, "bytes");
    assert!(rt; bytes.as_slice() == b"Flask\xff".as_slice());
    let vector = bytes.into_vec();
    assert!(rt; vector.as_slice() == b"Flask\xff".as_slice());
}

/// Whether users have these texts.
fn are_users(users: &[UserId], first: &str, second: &str) -> bool {
    match users {
        [one, other] => one.text() == first && other.text() == second,
        _ => false,
    }
}

#[test]
fn owners_come_back_as_they_went_in(rt: HostRuntime) {
    let mut users = Vec::new(rt.alloc());
    for text in ["bob", "alice"] {
        users.push(user(&rt, text)).expect(&rt, text);
    }
    let owners = Owners::new(users);
    assert!(rt; are_users(owners.as_slice(), "bob", "alice"));
}
