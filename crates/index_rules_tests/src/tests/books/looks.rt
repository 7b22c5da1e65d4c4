//! What the looks of scripts find, as texts.
use crate::tests::{file_name, name, release, token};
use index_digest::Digest256;
use index_rules::{Books, FileRecord, Keys, NameRecord, View};
use std::alloc::{AllocError, AllocGlobal, Global};
use std::process::Abort;

/// What the look of a line finds: a word, and what it is about.
pub(super) fn found_by<B: Books>(
    rt: &(impl Abort + AllocGlobal),
    books: &mut B,
    look: &str,
) -> String {
    let (word, about) = look.split_once(' ').expect(rt, look);
    match word {
        "held" => held(rt, books, about),
        "body" => body(rt, books, about),
        _ => found_in_view(rt, books, word, about),
    }
}

fn found_in_view<B: Books>(
    rt: &(impl Abort + AllocGlobal),
    books: &mut B,
    word: &str,
    about: &str,
) -> String {
    let keys = keys_of(rt, word, about);
    let view = books.view(rt.alloc(), &keys).expect(rt, about);
    told(rt.alloc(), word, &view).expect(rt, about)
}

fn keys_of(rt: &(impl Abort + AllocGlobal), word: &str, about: &str) -> Keys {
    match word {
        "bearer" => keys_of_token(about),
        "file" | "ban" => keys_of_file(rt, about),
        "release" => keys_of_release(rt, about),
        _ => Keys::of_name(&name(rt, about)).expect(rt, about),
    }
}

fn told(alloc: Global, word: &str, view: &View) -> Result<String, AllocError> {
    match word {
        "bearer" => told_bearer(alloc, view),
        "file" => told_file(alloc, view.file.as_ref()),
        "ban" => format!(in alloc; "{}", view.is_banned),
        "release" => told_release(alloc, view),
        "name" => told_name(alloc, view),
        "owners" => told_owners(alloc, view),
        "charge" => told_charge(alloc, view),
        "case" => told_case(alloc, view),
        _ => String::from_str(alloc, "no look"),
    }
}

/// A token alone, of the caller and of a user.
fn keys_of_token(text: &str) -> Keys {
    Keys {
        caller: Some(token(text)),
        user: None,
        token: Some(token(text)),
        name: None,
        file: None,
        release: None,
    }
}

fn keys_of_file(rt: &(impl Abort + AllocGlobal), text: &str) -> Keys {
    Keys {
        caller: None,
        user: None,
        token: None,
        name: None,
        file: Some(file_name(rt, text)),
        release: None,
    }
}

fn keys_of_release(rt: &(impl Abort + AllocGlobal), about: &str) -> Keys {
    let (project, version) = about.split_once(' ').expect(rt, about);
    Keys {
        caller: None,
        user: None,
        token: None,
        name: Some(name(rt, project)),
        file: None,
        release: Some(release(rt, version)),
    }
}

/// The user who bears a token, as the caller and as the bearer.
fn told_bearer(alloc: Global, view: &View) -> Result<String, AllocError> {
    let caller = view
        .caller
        .as_ref()
        .map_or("-", |caller| caller.user.text());
    let bearer = view.bearer.as_ref().map_or("-", |bearer| bearer.text());
    format!(in alloc; "{caller} {bearer}")
}

/// The release and project of a file, what was declared, its size, and whether it is undeleted.
fn told_file(alloc: Global, found: Option<&FileRecord>) -> Result<String, AllocError> {
    let Some(record) = found else {
        return String::from_str(alloc, "-");
    };
    if record.digest != Digest256::of(b"abc") {
        return String::from_str(alloc, "another digest");
    }
    let (project, release) = (record.project.text(), record.release.text());
    let requires_python = record.requires_python.as_str();
    let (size, is_undeleted) = (record.size, record.is_undeleted);
    format!(in alloc; "{project} {release} {requires_python} {size} {is_undeleted}")
}

/// Whether a release has an undeleted file, and why it is yanked.
fn told_release(alloc: Global, view: &View) -> Result<String, AllocError> {
    let has_files = view.has_release;
    let reason = view.yank.as_ref().map_or("-", |reason| reason.as_str());
    format!(in alloc; "{has_files} {reason}")
}

/// How a held name is shown, and its quota.
fn told_name(alloc: Global, view: &View) -> Result<String, AllocError> {
    match &view.name {
        Some(NameRecord::Held(project)) => {
            let (shown, quota) = (project.shown().as_str(), project.quota());
            format!(in alloc; "{shown} {quota}")
        }
        Some(NameRecord::Prohibited) => String::from_str(alloc, "prohibited"),
        None => String::from_str(alloc, "-"),
    }
}

/// The bytes and the files of a held name.
fn told_charge(alloc: Global, view: &View) -> Result<String, AllocError> {
    match &view.name {
        Some(NameRecord::Held(project)) => {
            let (charge, undeleted) = (project.charge(), project.undeleted());
            format!(in alloc; "{charge} {undeleted}")
        }
        _ => String::from_str(alloc, "-"),
    }
}

/// How many attempts the open case of a name has.
fn told_case(alloc: Global, view: &View) -> Result<String, AllocError> {
    match &view.case {
        Some(case) => format!(in alloc; "{}", case.state.attempts()),
        None => String::from_str(alloc, "-"),
    }
}

/// The owners of a name, with spaces between them.
fn told_owners(alloc: Global, view: &View) -> Result<String, AllocError> {
    let mut found = String::new(alloc);
    for user in view.owners.as_slice() {
        add_word(&mut found, user.text())?;
    }
    if found.is_empty() {
        found.push('-')?;
    }
    Ok(found)
}

fn add_word(words: &mut String, word: &str) -> Result<(), AllocError> {
    if !words.is_empty() {
        words.push(' ')?;
    }
    words.push_str(word)
}

/// Whether a name is held.
fn held<B: Books>(rt: &(impl Abort + AllocGlobal), books: &mut B, text: &str) -> String {
    let name = name(rt, text);
    let held = books.is_held(rt.alloc(), &name).expect(rt, text);
    format!(in rt.alloc(); "{held}").expect(rt, text)
}

/// The bytes of a file.
fn body<B: Books>(rt: &(impl Abort + AllocGlobal), books: &mut B, text: &str) -> String {
    let file = file_name(rt, text);
    let body = books.bytes_of(rt.alloc(), &file).expect(rt, text);
    let found = match &body {
        Some(body) if body.bytes() == b"abc".as_slice() => "abc",
        Some(_) => "other bytes",
        None => "-",
    };
    String::from_str(rt.alloc(), found).expect(rt, text)
}
