//! Requests from constants.
use index_digest::Digest256;
use index_rules::{Bytes, Call, Request};
use std::alloc::AllocGlobal;
use std::process::Abort;

fn bytes(rt: &(impl Abort + AllocGlobal), text: &[u8]) -> Bytes {
    Bytes::copy_of(rt.alloc(), text).expect(rt, "bytes")
}

/// The call that the bearer of a token makes.
pub(super) fn call_by(token: &str, request: Request) -> Call {
    Call {
        at: 11,
        token: Digest256::of(token.as_bytes()),
        request,
    }
}

pub(super) fn add_user(
    rt: &(impl Abort + AllocGlobal),
    user: &str,
    office: bool,
    digest: &str,
) -> Request {
    Request::AddUser {
        user: bytes(rt, user.as_bytes()),
        office,
        token: bytes(rt, digest.as_bytes()),
    }
}

pub(super) fn set_token(rt: &(impl Abort + AllocGlobal), user: &str, digest: &str) -> Request {
    Request::SetToken {
        user: bytes(rt, user.as_bytes()),
        token: bytes(rt, digest.as_bytes()),
    }
}

pub(super) fn claim(rt: &(impl Abort + AllocGlobal), name: &str) -> Request {
    Request::Claim {
        name: bytes(rt, name.as_bytes()),
    }
}

pub(super) fn prohibit(rt: &(impl Abort + AllocGlobal), name: &str) -> Request {
    Request::Prohibit {
        name: bytes(rt, name.as_bytes()),
    }
}

pub(super) fn remove_owner(rt: &(impl Abort + AllocGlobal), name: &str, user: &str) -> Request {
    Request::RemoveOwner {
        name: bytes(rt, name.as_bytes()),
        user: bytes(rt, user.as_bytes()),
    }
}

pub(super) fn upload(
    rt: &(impl Abort + AllocGlobal),
    file: &str,
    digest: &str,
    body: Vec<u8>,
) -> Request {
    Request::Upload {
        file: bytes(rt, file.as_bytes()),
        sha256: bytes(rt, digest.as_bytes()),
        body: Bytes::new(body),
        requires_python: bytes(rt, b""),
    }
}

/// A yank of the release 1.0 of `frob`.
pub(super) fn yank(rt: &(impl Abort + AllocGlobal), reason: &[u8]) -> Request {
    Request::Yank {
        name: bytes(rt, b"frob"),
        release: bytes(rt, b"1.0"),
        reason: bytes(rt, reason),
    }
}
