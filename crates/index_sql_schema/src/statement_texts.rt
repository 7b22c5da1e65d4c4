//! The statements on the tables.

/// Puts a user with its record.
pub const PUT_USER: &str =
    "INSERT INTO users (user, office, token) VALUES (?1, ?2, ?3) ON CONFLICT (user) DO UPDATE SET office = excluded.office, token = excluded.token";

/// Puts a name with its record.
pub const PUT_NAME: &str =
    "INSERT INTO names (name, state, shown, quota, charged, live, last_upload) VALUES (?1, ?2, ?3, ?4, ?5, ?6, ?7) ON CONFLICT (name) DO UPDATE SET state = excluded.state, shown = excluded.shown, quota = excluded.quota, charged = excluded.charged, live = excluded.live, last_upload = excluded.last_upload";

/// Puts a name with one more owner.
pub const PUT_OWNER: &str =
    "INSERT INTO owners (name, user) VALUES (?1, ?2) ON CONFLICT (name, user) DO UPDATE SET user = excluded.user";

/// Puts a file with its record.
pub const PUT_FILE: &str =
    "INSERT INTO files (file, name, rel, digest, size, requires, live) VALUES (?1, ?2, ?3, ?4, ?5, ?6, ?7) ON CONFLICT (file) DO UPDATE SET name = excluded.name, rel = excluded.rel, digest = excluded.digest, size = excluded.size, requires = excluded.requires, live = excluded.live";

/// Puts the bytes of a file that has none.
pub const PUT_BODY: &str = "INSERT INTO blobs (file, body) VALUES (?1, ?2)";

/// Puts a release of a name with the reason of its yank.
pub const PUT_YANK: &str =
    "INSERT INTO yanks (name, rel, reason) VALUES (?1, ?2, ?3) ON CONFLICT (name, rel) DO UPDATE SET reason = excluded.reason";

/// Puts a name with its open case.
pub const PUT_CASE: &str =
    "INSERT INTO cases (name, kind, candidate, contact, work, why, opened, attempts, sent, profile, author, pages, first_sent) VALUES (?1, ?2, ?3, ?4, ?5, ?6, ?7, ?8, ?9, ?10, ?11, ?12, ?13) ON CONFLICT (name) DO UPDATE SET kind = excluded.kind, candidate = excluded.candidate, contact = excluded.contact, work = excluded.work, why = excluded.why, opened = excluded.opened, attempts = excluded.attempts, sent = excluded.sent, profile = excluded.profile, author = excluded.author, pages = excluded.pages, first_sent = excluded.first_sent";

/// Puts a banned file.
pub const PUT_BAN: &str =
    "INSERT INTO bans (file) VALUES (?1) ON CONFLICT (file) DO UPDATE SET file = excluded.file";

/// Puts the version of a new index.
pub const PUT_VERSION: &str = "INSERT INTO meta (id, kind, version) VALUES (1, 'python-index', ?1)";

/// Deletes a name, and by the schema its owners, yanks and case.
pub const DELETE_NAME: &str = "DELETE FROM names WHERE name = ?1";

/// Deletes all owners of a name.
pub const DELETE_OWNERS: &str = "DELETE FROM owners WHERE name = ?1";

/// Deletes one owner of a name.
pub const DELETE_OWNER: &str = "DELETE FROM owners WHERE name = ?1 AND user = ?2";

/// Deletes all yanks of a name.
pub const DELETE_YANKS: &str = "DELETE FROM yanks WHERE name = ?1";

/// Deletes the yank of a release of a name.
pub const DELETE_YANK: &str = "DELETE FROM yanks WHERE name = ?1 AND rel = ?2";

/// Deletes the open case of a name.
pub const DELETE_CASE: &str = "DELETE FROM cases WHERE name = ?1";

/// Deletes the bytes of a file.
pub const DELETE_BODY: &str = "DELETE FROM blobs WHERE file = ?1";

/// Marks all files of a name as deleted.
pub const UPDATE_FILES: &str = "UPDATE files SET live = 0 WHERE name = ?1";

/// Sets the version to 2.
pub const UPDATE_VERSION: &str = "UPDATE meta SET version = 2 WHERE id = 1";

/// Finds the version of the tables.
pub const SELECT_VERSION: &str = "SELECT version FROM meta WHERE id = 1 AND kind = 'python-index'";

/// Finds a user.
pub const SELECT_USER: &str = "SELECT rowid, * FROM users WHERE user = ?1";

/// Finds the user who has the token with this digest.
pub const SELECT_BEARER: &str = "SELECT rowid, * FROM users WHERE token = ?1";

/// Finds a name.
pub const SELECT_NAME: &str = "SELECT rowid, * FROM names WHERE name = ?1";

/// Finds a file.
pub const SELECT_FILE: &str = "SELECT rowid, * FROM files WHERE file = ?1";

/// Finds the files of a name, the deleted ones too.
pub const SELECT_NAMED: &str = "SELECT file FROM files WHERE name = ?1";

/// Finds an undeleted file of a release, if there is one.
pub const SELECT_RELEASE: &str =
    "SELECT rowid FROM files WHERE live = 1 AND name = ?1 AND rel = ?2 LIMIT 1";

/// Finds the bytes of a file.
pub const SELECT_BODY: &str = "SELECT rowid, * FROM blobs WHERE file = ?1";

/// Finds the yank of a release of a name.
pub const SELECT_YANK: &str = "SELECT rowid, * FROM yanks WHERE name = ?1 AND rel = ?2";

/// Finds the open case of a name.
pub const SELECT_CASE: &str = "SELECT rowid, * FROM cases WHERE name = ?1";

/// Finds a banned file.
pub const SELECT_BAN: &str = "SELECT rowid, * FROM bans WHERE file = ?1";

/// Finds the owners of a name, in byte order.
pub const SELECT_OWNERS: &str = "SELECT user FROM owners WHERE name = ?1 ORDER BY user";

/// Finds the held names and the prohibited ones, in byte order.
pub const SELECT_NAMES: &str = "SELECT rowid, * FROM names ORDER BY name";

/// Finds what is stored for each file, in byte order.
pub const SELECT_BODIES: &str = "SELECT rowid, * FROM blobs ORDER BY file";

/// Finds the held names, in byte order.
pub const SELECT_HELD: &str = "SELECT rowid, * FROM names WHERE state <> 2 ORDER BY name";

/// Finds the undeleted files of a name with the reasons of their yanks, in byte order.
pub const SELECT_FILES: &str =
    "SELECT files.rowid, files.*, yanks.reason FROM files LEFT JOIN yanks ON yanks.name = files.name AND yanks.rel = files.rel WHERE files.live = 1 AND files.name = ?1 ORDER BY files.file";
