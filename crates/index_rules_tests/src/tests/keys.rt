//! The keys of calls.
use super::requests::{add_user, call_by, claim, remove_owner, set_token, upload};
use super::{OF_ABC, OF_NOTHING, name, token};
use index_digest::Digest256;
use index_rules::{Fault, Keys, Request};
use std::alloc::{AllocError, AllocGlobal, Global};
use std::process::Abort;

/// The keys of a request, by the bearer of the token `office`.
fn keys_of(alloc: Global, request: Request) -> Result<Keys, Fault> {
    let call = call_by("office", request);
    let keys = call.keys(alloc);
    drop(call);
    keys
}

/// The token whose digest this is.
fn token_of(digest: Option<Digest256>) -> &'static str {
    match digest {
        Some(digest) if digest == token("office") => "office",
        Some(digest) if digest == token("abc") => "abc",
        Some(_) => "another token",
        None => "-",
    }
}

/// The tokens of the caller and for the user, and the texts of the user, the name and the file, each `-` if it is
/// missing.
fn told(alloc: Global, keys: &Keys) -> Result<String, AllocError> {
    let (caller, brought) = (token_of(keys.caller), token_of(keys.token));
    let user = keys.user.as_ref().map_or("-", |user| user.text());
    let name = keys.name.as_ref().map_or("-", |name| name.text());
    let file = keys.file.as_ref().map_or("-", |file| file.text());
    format!(in alloc; "{caller} {brought} {user} {name} {file}")
}

fn assert_keys(rt: &(impl Abort + AllocGlobal), keys: Result<Keys, Fault>, want: &str) {
    let keys = keys.expect(rt, want);
    let told = told(rt.alloc(), &keys).expect(rt, want);
    assert_eq!(rt; told.as_str(), want);
}

#[test]
fn keys_are_what_can_be_read(rt: HostRuntime) {
    let alloc = rt.alloc();
    let keys = keys_of(alloc, add_user(&rt, "bob", true, OF_ABC));
    assert_keys(&rt, keys, "office abc bob - -");
    let keys = keys_of(alloc, set_token(&rt, "Bob", OF_NOTHING));
    assert_keys(&rt, keys, "office - - - -");
    let keys = keys_of(alloc, claim(&rt, "a.-_B"));
    assert_keys(&rt, keys, "office - - a-b -");
    let keys = keys_of(alloc, remove_owner(&rt, "-a", "bob"));
    assert_keys(&rt, keys, "office - bob - -");
}

#[test]
fn keys_of_an_upload(rt: HostRuntime) {
    let body = Vec::from_slice(rt.alloc(), b"abc").expect(&rt, "a body");
    let request = upload(&rt, "Flask-1.0.tar.gz", OF_ABC, body);
    let want = "office - - flask Flask-1.0.tar.gz";
    assert_keys(&rt, keys_of(rt.alloc(), request), want);
}

#[test]
fn keys_of_a_name(rt: HostRuntime) {
    let name = name(&rt, "Zope.Interface");
    assert_keys(&rt, Keys::of_name(&name), "- - - zope-interface -");
}
