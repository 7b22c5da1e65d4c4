//! A connection that was worked on: what a crash leaves of it can be opened again, for proofs.
ghost use Rattle.std.specs.Prelude.{◌≡◌, IsTrue};
ghost use Rattle.sqlite.specs.Files.{file_state, over_files};
ghost use Rattle.sqlite.specs.Held.{AreDatabases, state};
ghost use Rattle.sqlite.specs.State.{HasCleanDisk};
ghost use Rattle.sqlite.specs.Tree.{Trees};

use sqlite::{Alter, Connection, FileStore};
use sqlite_disk::Disk;

/// Returns the connection unchanged. It names the store of files once for all its callers, since that costs a proof 20
/// seconds.
pub fn worked_on<D: Disk>(conn: Connection<FileStore<D>>) -> Connection<FileStore<D>>
    ensures same { result ≡ conn }
    ensures numbered { HasCleanDisk (file_state result)
        → IsTrue (over_files.view result.store).is_numbered }
    ensures databases { HasCleanDisk (file_state result)
        → AreDatabases (over_files.recovers result.store) }
    ensures settled { (db : Trees) → IsTrue (file_state result).is_open
        → (file_state result).may_leave db → db ≡ (file_state result).committed.trees }
{
    looked_at(conn)
}

/// The same over any store.
fn looked_at<S: Alter>(conn: Connection<S>) -> Connection<S>
    ensures same { result ≡ conn }
    ensures numbered { HasCleanDisk (state S.Store result)
        → IsTrue (S.Store.view result.store).is_numbered }
    ensures databases { HasCleanDisk (state S.Store result)
        → AreDatabases (S.Store.recovers result.store) }
    ensures settled { (db : Trees) → IsTrue (state S.Store result).is_open
        → (state S.Store result).may_leave db → db ≡ (state S.Store result).committed.trees }
{
    let _outside = conn.is_autocommit();
    conn
}
