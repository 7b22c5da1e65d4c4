//! The changes that scripts write.
use super::case_changes::{open_case, record_attempt, transfer};
use super::file_changes::{ban_file, delete, unyank, upload, yank};
use crate::tests::{name, text, token, user};
use index_rules::{Change, Project, UserRecord};
use std::alloc::AllocGlobal;
use std::process::Abort;

/// One gibibyte.
pub(super) const QUOTA: u64 = 1_073_741_824;

/// The change that a line writes: a word, and what it is about.
pub(super) fn change_of(rt: &(impl Abort + AllocGlobal), line: &str) -> Change {
    let (word, about) = line.split_once(' ').expect(rt, line);
    match about.split_once(' ') {
        Some((first, second)) => change_of_two(rt, word, first, second),
        None => change_of_one(rt, word, about),
    }
}

fn change_of_one(rt: &(impl Abort + AllocGlobal), word: &str, text: &str) -> Change {
    match word {
        "delete" => delete(rt, text),
        "ban_file" => ban_file(rt, None, text),
        "relinquish" => Change::Relinquish {
            name: name(rt, text),
        },
        "prohibit" => Change::Prohibit {
            name: name(rt, text),
        },
        "allow" => Change::Allow {
            name: name(rt, text),
        },
        "open_case" => open_case(rt, text),
        "record_attempt" => record_attempt(rt, text),
        _ => panic!(rt; "{word} is no change"),
    }
}

fn change_of_two(rt: &(impl Abort + AllocGlobal), word: &str, first: &str, second: &str) -> Change {
    match word {
        "add_user" => add_user(rt, first, second),
        "set_token" => set_token(rt, first, second),
        "claim" => claim(rt, first, second),
        "set_quota" => set_quota(rt, first, second),
        "add_owner" => add_owner(rt, first, second),
        "remove_owner" => remove_owner(rt, first, second),
        _ => change_of_file_or_case(rt, word, first, second),
    }
}

fn change_of_file_or_case(
    rt: &(impl Abort + AllocGlobal),
    word: &str,
    first: &str,
    second: &str,
) -> Change {
    match word {
        "upload" => upload(rt, first, second),
        "ban_file" => ban_file(rt, Some(project(rt, first)), second),
        "yank" => yank(rt, first, second),
        "unyank" => unyank(rt, first, second),
        "transfer" => transfer(rt, first, second),
        _ => panic!(rt; "{word} is no change"),
    }
}

/// The record of a user who is not of the office.
fn user_record(text: &str) -> UserRecord {
    UserRecord {
        office: false,
        token: token(text),
    }
}

fn add_user(rt: &(impl Abort + AllocGlobal), text: &str, token: &str) -> Change {
    Change::AddUser {
        user: user(rt, text),
        record: user_record(token),
    }
}

fn set_token(rt: &(impl Abort + AllocGlobal), text: &str, token: &str) -> Change {
    Change::SetToken {
        user: user(rt, text),
        record: user_record(token),
    }
}

/// A project without files.
pub(super) fn project(rt: &(impl Abort + AllocGlobal), shown: &str) -> Project {
    project_with(rt, shown, QUOTA, 0, 0)
}

/// A project with this quota, charge and count of files.
pub(super) fn project_with(
    rt: &(impl Abort + AllocGlobal),
    shown: &str,
    quota: u64,
    charge: u64,
    undeleted: u64,
) -> Project {
    let shown = text(rt, shown);
    Project::from_parts(shown, quota, charge, undeleted, None).expect(rt, "a project")
}

fn claim(rt: &(impl Abort + AllocGlobal), shown: &str, owner: &str) -> Change {
    Change::Claim {
        name: name(rt, shown),
        project: project(rt, shown),
        owner: user(rt, owner),
    }
}

fn set_quota(rt: &(impl Abort + AllocGlobal), shown: &str, quota: &str) -> Change {
    let quota = quota.parse().expect(rt, quota);
    Change::SetQuota {
        name: name(rt, shown),
        project: project_with(rt, shown, quota, 0, 0),
    }
}

fn add_owner(rt: &(impl Abort + AllocGlobal), text: &str, owner: &str) -> Change {
    Change::AddOwner {
        name: name(rt, text),
        user: user(rt, owner),
    }
}

fn remove_owner(rt: &(impl Abort + AllocGlobal), text: &str, owner: &str) -> Change {
    Change::RemoveOwner {
        name: name(rt, text),
        user: user(rt, owner),
    }
}
