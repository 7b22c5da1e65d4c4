//! What the tables have at the keys of a call. If a call lacks a key, nothing is looked up for it.
ghost use Rattle.std.specs.Prelude.{false, option_and_then, Some};
ghost use Rattle.std.specs.Option.{option_map_or};
ghost use Rattle.std.specs.FinMap.{get};
ghost use Rattle.index_rules.specs.Facts.{IsBearerAs, Sees, at_both, caller_of, has_release_in, is_banned_in, of_both, yank_in};
ghost use Rattle.index_rules.specs.Seen.{SeesFiles, SeesName, SeesUsers};
ghost use Rattle.index_sql_reads.specs.Finds.{FindsInTables, Gets};

use crate::lookups::{
    find_bearer, find_case, find_file, find_name, find_user, find_yank, has_release, is_banned,
    owners_of,
};
use index_digest::Digest256;
use index_names::{FileName, NormalName, Release};
use index_rules::{
    Caller, Fault, FileRecord, FilesSeen, Keys, NameSeen, Owners, UserId, UserRecord, UsersSeen,
    View,
};
use index_sql_schema::IndexConnection;
use index_text::Text;
use sqlite::Alter;
use std::alloc::Global;

/// The records that the keys name.
///
/// # Errors
///
/// `OutOfMemory` if memory runs out, and `Store` if the store fails or a row is invalid.
pub fn view<S: Alter>(
    alloc: Global,
    conn: &mut IndexConnection<S>,
    keys: &Keys,
) -> Result<View, Fault>
    ensures { FindsInTables S.Store conn.old conn.new result (λ T. Sees T keys.now) }
{
    let users = see_users(alloc, conn, keys)?;
    let (files, name) = see_project(alloc, conn, keys)?;
    Ok(View::from_parts(users, name, files))
}

/// The caller, the user whom the call names and the user who has the token that it brings.
fn see_users<S: Alter>(
    alloc: Global,
    conn: &mut IndexConnection<S>,
    keys: &Keys,
) -> Result<UsersSeen, Fault>
    ensures { FindsInTables S.Store conn.old conn.new result (λ T. SeesUsers T keys.now) }
{
    let user = user_at(alloc, conn, &keys.user)?;
    let caller = caller_at(alloc, conn, keys.caller)?;
    let bearer = bearer_at(alloc, conn, keys.token)?;
    Ok(UsersSeen {
        caller,
        user,
        bearer,
    })
}

/// What the tables have of the file, the release and the name that the call is about.
fn see_project<S: Alter>(
    alloc: Global,
    conn: &mut IndexConnection<S>,
    keys: &Keys,
) -> Result<(FilesSeen, NameSeen), Fault>
    ensures { FindsInTables S.Store conn.old conn.new result
        (λ T seen. SeesFiles T keys.now seen.0 × SeesName T keys.now.name seen.1) }
{
    let files = see_files(alloc, conn, keys)?;
    let name = see_name(alloc, conn, &keys.name)?;
    Ok((files, name))
}

/// What the tables have of the file and of the release that the call names.
fn see_files<S: Alter>(
    alloc: Global,
    conn: &mut IndexConnection<S>,
    keys: &Keys,
) -> Result<FilesSeen, Fault>
    ensures { FindsInTables S.Store conn.old conn.new result (λ T. SeesFiles T keys.now) }
{
    let has_release = release_at(alloc, conn, &keys.name, &keys.release)?;
    let is_banned = ban_at(conn, &keys.file)?;
    let file = file_at(alloc, conn, &keys.file)?;
    let yank = yank_at(alloc, conn, &keys.name, &keys.release)?;
    Ok(FilesSeen {
        file,
        is_banned,
        yank,
        has_release,
    })
}

/// The record, the owners and the case of the name, if the call is about one.
fn see_name<S: Alter>(
    alloc: Global,
    conn: &mut IndexConnection<S>,
    name: &Option<NormalName>,
) -> Result<NameSeen, Fault>
    ensures { FindsInTables S.Store conn.old conn.new result (λ T. SeesName T name.now) }
{
    match name {
        Some(name) => see_one_name(alloc, conn, name),
        None => Ok(NameSeen {
            name: None,
            owners: Owners::new(Vec::new(alloc)),
            case: None,
        }),
    }
}

/// The record, the owners and the case of a name.
fn see_one_name<S: Alter>(
    alloc: Global,
    conn: &mut IndexConnection<S>,
    name: &NormalName,
) -> Result<NameSeen, Fault>
    ensures { FindsInTables S.Store conn.old conn.new result (λ T. SeesName T (Some name.now)) }
{
    let owners = owners_of(alloc, conn, name)?;
    let record = find_name(alloc, conn, name)?;
    let case = find_case(alloc, conn, name)?;
    Ok(NameSeen {
        name: record,
        owners,
        case,
    })
}

// ---- one part each

/// The user who has the token, as a caller.
fn caller_at<S: Alter>(
    alloc: Global,
    conn: &mut IndexConnection<S>,
    token: Option<Digest256>,
) -> Result<Option<Caller>, Fault>
    ensures { FindsInTables S.Store conn.old conn.new result (λ T. IsBearerAs caller_of T token) }
{
    let Some(token) = token else {
        return Ok(None);
    };
    match find_bearer(alloc, conn, token)? {
        Some((user, account)) => Ok(Some(Caller {
            user,
            office: account.office,
        })),
        None => Ok(None),
    }
}

/// The user who has the token.
fn bearer_at<S: Alter>(
    alloc: Global,
    conn: &mut IndexConnection<S>,
    token: Option<Digest256>,
) -> Result<Option<UserId>, Fault>
    ensures { FindsInTables S.Store conn.old conn.new result
        (λ T. IsBearerAs (λ user. user.0) T token) }
{
    let Some(token) = token else {
        return Ok(None);
    };
    match find_bearer(alloc, conn, token)? {
        Some((user, _)) => Ok(Some(user)),
        None => Ok(None),
    }
}

/// The record of the user.
fn user_at<S: Alter>(
    alloc: Global,
    conn: &mut IndexConnection<S>,
    user: &Option<UserId>,
) -> Result<Option<UserRecord>, Fault>
    ensures { Gets S.Store conn.old conn.new result (λ T. option_and_then (get T.users) user.now) }
{
    match user {
        Some(user) => find_user(alloc, conn, user),
        None => Ok(None),
    }
}

/// The record of the file.
fn file_at<S: Alter>(
    alloc: Global,
    conn: &mut IndexConnection<S>,
    file: &Option<FileName>,
) -> Result<Option<FileRecord>, Fault>
    ensures { Gets S.Store conn.old conn.new result (λ T. option_and_then (get T.files) file.now) }
{
    match file {
        Some(file) => find_file(alloc, conn, file),
        None => Ok(None),
    }
}

/// Whether the file is banned.
fn ban_at<S: Alter>(conn: &mut IndexConnection<S>, file: &Option<FileName>) -> Result<bool, Fault>
    ensures { Gets S.Store conn.old conn.new result
        (λ T. option_map_or (is_banned_in T) file.now false) }
{
    match file {
        Some(file) => is_banned(conn, file),
        None => Ok(false),
    }
}

/// Why the release of the name is yanked, if it is.
fn yank_at<S: Alter>(
    alloc: Global,
    conn: &mut IndexConnection<S>,
    name: &Option<NormalName>,
    release: &Option<Release>,
) -> Result<Option<Text>, Fault>
    ensures { Gets S.Store conn.old conn.new result
        (λ T. at_both (yank_in T) name.now release.now) }
{
    match (name, release) {
        (Some(name), Some(release)) => find_yank(alloc, conn, name, release),
        _ => Ok(None),
    }
}

/// Whether the name has an undeleted file of the release.
fn release_at<S: Alter>(
    alloc: Global,
    conn: &mut IndexConnection<S>,
    name: &Option<NormalName>,
    release: &Option<Release>,
) -> Result<bool, Fault>
    ensures { Gets S.Store conn.old conn.new result
        (λ T. of_both (has_release_in T) name.now release.now) }
{
    match (name, release) {
        (Some(name), Some(release)) => has_release(alloc, conn, name, release),
        _ => Ok(false),
    }
}
