//! The view of the tables that a decision rests on.
ghost use Rattle.std.specs.Prelude.{◌≡◌, List, ℕ};

use crate::records::{CaseRecord, FileRecord, NameRecord, UserRecord};
use crate::user::UserId;
use index_text::Text;
use std::marker::Model;

/// Owners of a name. Contracts see the list of their ids.
#[derive(Debug)]
pub struct Owners {
    users: Vec<UserId>,
}

// By hand: each exit of a function then makes one call to drop (docs/developers/PROOF-COSTS.md).
impl Drop for Owners {
    fn drop(self) {
        let Owners { users: _users } = self;
    }
}

impl Model for Owners {
    ghost Value = { List (List ℕ) };

    ghost view = { λ o. o.users.items };
}

impl Owners {
    /// The owners with these ids.
    pub fn new(users: Vec<UserId>) -> Owners
        ensures { result ≡ users.items }
    {
        Owners { users }
    }

    /// The users' ids.
    pub fn as_slice(&self) -> &[UserId]
        ensures { result.now ≡ self.now }
    {
        self.users.as_slice()
    }
}

/// The user who has a token.
#[derive(Clone, Debug)]
pub struct Caller {
    pub user: UserId,
    /// Whether the user is of the office.
    pub office: bool,
}

impl Drop for Caller {
    fn drop(self) {
        let Caller {
            user: _user,
            office: _office,
        } = self;
    }
}

/// The records that a call's keys name.
#[derive(Debug)]
pub struct View {
    /// The user who has the caller's token.
    pub caller: Option<Caller>,
    pub user: Option<UserRecord>,
    /// The user who has the token that the call brings for a user.
    pub bearer: Option<UserId>,
    pub name: Option<NameRecord>,
    /// The owners of the name, in byte order.
    pub owners: Owners,
    pub file: Option<FileRecord>,
    /// Whether the file is banned.
    pub is_banned: bool,
    /// Why the release is yanked, if it is.
    pub yank: Option<Text>,
    /// Whether the release has an undeleted file.
    pub has_release: bool,
    /// The open case of the name.
    pub case: Option<CaseRecord>,
}

impl Drop for View {
    fn drop(self) {
        let View {
            caller: _caller,
            user: _user,
            bearer: _bearer,
            name: _name,
            owners: _owners,
            file: _file,
            is_banned: _is_banned,
            yank: _yank,
            has_release: _has_release,
            case: _case,
        } = self;
    }
}

/// What a view has of users.
#[derive(Drop)]
pub struct UsersSeen {
    pub caller: Option<Caller>,
    pub user: Option<UserRecord>,
    pub bearer: Option<UserId>,
}

/// What a view has of the name.
#[derive(Drop)]
pub struct NameSeen {
    pub name: Option<NameRecord>,
    pub owners: Owners,
    pub case: Option<CaseRecord>,
}

/// What a view has of the file and the release.
#[derive(Drop)]
pub struct FilesSeen {
    pub file: Option<FileRecord>,
    pub is_banned: bool,
    pub yank: Option<Text>,
    pub has_release: bool,
}

impl View {
    ghost use Rattle.index_rules.specs.declared.keys.Keys.{Keys};
    ghost use Rattle.index_rules.specs.Facts.{Sees};
    ghost use Rattle.index_rules.specs.Seen.{SeesFiles, SeesName, SeesUsers};
    ghost use Rattle.index_rules.specs.Tables.{Tables};

    /// The view of these parts.
    pub fn from_parts(users: UsersSeen, name: NameSeen, files: FilesSeen) -> View
        ensures { (T : Tables) (k : Keys) → SeesUsers T k users → SeesName T k.name name →
            SeesFiles T k files → Sees T k result }
    {
        let UsersSeen {
            caller,
            user,
            bearer,
        } = users;
        let NameSeen { name, owners, case } = name;
        let FilesSeen {
            file,
            is_banned,
            yank,
            has_release,
        } = files;
        View {
            caller,
            user,
            bearer,
            name,
            owners,
            file,
            is_banned,
            yank,
            has_release,
            case,
        }
    }

    /// What the view has of the name.
    pub fn into_name(self) -> NameSeen
        ensures name { result.name ≡ self.name }
        ensures owners { result.owners ≡ self.owners }
        ensures case { result.case ≡ self.case }
    {
        let View {
            caller: _caller,
            user: _user,
            bearer: _bearer,
            name,
            owners,
            file: _file,
            is_banned: _,
            yank: _yank,
            has_release: _,
            case,
        } = self;
        NameSeen { name, owners, case }
    }
}
