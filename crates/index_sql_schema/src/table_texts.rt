//! The statements that make the tables, version 2.

/// The kind of the file and the version of its tables.
pub const META: &str =
    "CREATE TABLE meta (id INTEGER PRIMARY KEY, kind TEXT NOT NULL, version INTEGER NOT NULL) STRICT";

/// Each user; `office` is 0 or 1, and `token` the digest of a token.
pub const USERS: &str =
    "CREATE TABLE users (user TEXT NOT NULL PRIMARY KEY, office INTEGER NOT NULL, token BLOB NOT NULL UNIQUE) STRICT";

/// Each name that is not free; `state` is 1 for a held name and 2 for a prohibited one.
pub const NAMES: &str =
    "CREATE TABLE names (name TEXT NOT NULL PRIMARY KEY, state INTEGER NOT NULL, shown TEXT NOT NULL, quota INTEGER NOT NULL, charged INTEGER NOT NULL, live INTEGER NOT NULL, last_upload INTEGER, CHECK (charged BETWEEN 0 AND quota)) STRICT";

/// Each name with each of its owners.
pub const OWNERS: &str =
    "CREATE TABLE owners (name TEXT NOT NULL REFERENCES names (name) ON DELETE CASCADE, user TEXT NOT NULL REFERENCES users (user), PRIMARY KEY (name, user)) STRICT";

/// Each file that was ever accepted; `live` is 1 if it is undeleted, else 0. By the second key the files of a name are
/// found in order without reading those of other names.
pub const FILES: &str =
    "CREATE TABLE files (file TEXT NOT NULL PRIMARY KEY, name TEXT NOT NULL, rel TEXT NOT NULL, digest BLOB NOT NULL, size INTEGER NOT NULL, requires TEXT NOT NULL, live INTEGER NOT NULL, UNIQUE (name, file)) STRICT";

/// The bytes of each undeleted file.
pub const BLOBS: &str =
    "CREATE TABLE blobs (file TEXT NOT NULL PRIMARY KEY REFERENCES files (file), body BLOB NOT NULL) STRICT";

/// Each name with each of its yanked releases.
pub const YANKS: &str =
    "CREATE TABLE yanks (name TEXT NOT NULL REFERENCES names (name) ON DELETE CASCADE, rel TEXT NOT NULL, reason TEXT NOT NULL, PRIMARY KEY (name, rel)) STRICT";

/// Each open case; `kind` is 1 for continued maintenance and 2 for reuse, and the three means are 0 or 1.
pub const CASES: &str =
    "CREATE TABLE cases (name TEXT NOT NULL PRIMARY KEY REFERENCES names (name) ON DELETE CASCADE, kind INTEGER NOT NULL, candidate TEXT NOT NULL REFERENCES users (user), contact TEXT NOT NULL, work TEXT NOT NULL, why TEXT NOT NULL, opened INTEGER NOT NULL, attempts INTEGER NOT NULL, sent INTEGER NOT NULL, profile INTEGER NOT NULL, author INTEGER NOT NULL, pages INTEGER NOT NULL, first_sent INTEGER) STRICT";

/// Each banned file.
pub const BANS: &str =
    "CREATE TABLE bans (file TEXT NOT NULL PRIMARY KEY REFERENCES files (file)) STRICT";
