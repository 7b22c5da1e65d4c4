//! The file of a volume: its path, and how it is opened or made.
ghost use Rattle.std.specs.Prelude.{◌≡◌, false, IfErr, IfOk, IsTrue};
ghost use Rattle.sqlite_std_file.specs.File.{IsFresh};
ghost use Rattle.index.specs.Causes.{cause_of_calls};
ghost use Rattle.index.specs.Ends.{is_fault_end, is_store};

use crate::cause::{Cause, cause_of_calls, cause_of_kind};
use crate::end::End;
use crate::files::open_files;
use index_args::Paths;
use index_volume_books::TakeFault;
use sqlite::{FileFrom, Files, Start};
use sqlite_disk::Disk;
use std::alloc::Global;
use std::fs;
use std::io::{self, ErrorKind};

/// What is added to the name of a database for that of its volume, if no path is given.
const BESIDE: &str = "-volume";

/// The path of the volume of a database: as given, or beside the database's file, with links followed.
///
/// `OutOfMemory`, or `Store` if the path of the database can't be followed.
pub fn volume_path(rt: &HostRuntime, paths: Paths<'_>) -> Result<String, End>
    ensures fault { IfErr result (λ end. IsTrue (is_fault_end end)) }
{
    match paths.volume {
        Some(path) if !path.is_empty() => Ok(String::from_str(rt.alloc(), path)?),
        _ => path_beside(rt, paths.db),
    }
}

/// The path of the volume beside a database. A database that is missing has it beside its path.
fn path_beside(rt: &HostRuntime, db: &str) -> Result<String, End>
    ensures fault { IfErr result (λ end. IsTrue (is_fault_end end)) }
{
    match fs::canonicalize(rt, db) {
        Ok(real) => with_suffix(rt.alloc(), real.as_str()),
        Err(error) if error.kind() == ErrorKind::NotFound => with_suffix(rt.alloc(), db),
        Err(error) if error.kind() == ErrorKind::OutOfMemory => Err(End::OutOfMemory),
        Err(error) => Err(End::Store(cause_of_kind(error.kind()))),
    }
}

/// The name of a database's volume.
fn with_suffix(alloc: Global, db: &str) -> Result<String, End>
    ensures fault { IfErr result (λ end. IsTrue (is_fault_end end)) }
{
    let mut path = String::from_str(alloc, db)?;
    path.push_str(BESIDE)?;
    Ok(path)
}

/// Opens an existing volume; it never makes one. It is locked from here on.
pub fn open_volume<V: Start>(
    rt: &HostRuntime,
    path: &str,
    start: V,
) -> Result<Files<FileFrom<V>>, End>
    ensures fresh { IfOk result (λ files. IsFresh false files.db) }
    ensures fault { IfErr result (λ end. IsTrue (is_fault_end end)) }
{
    match fs::symlink_metadata(rt, path) {
        Ok(found) if found.is_symlink() => Err(end_of_volume(rt.alloc(), path, Some(Cause::Link))),
        Ok(_) => open_at(rt, path, start),
        Err(error) => Err(end_of_system(rt.alloc(), path, error)),
    }
}

/// Makes a new volume, or takes an empty file as one. It is locked from here on.
pub fn make_volume<V: Start>(
    rt: &HostRuntime,
    path: &str,
    start: V,
) -> Result<Files<FileFrom<V>>, End>
    ensures fault { IfErr result (λ end. IsTrue (is_fault_end end)) }
{
    match check_new(rt, path) {
        Ok(()) => open_at(rt, path, start),
        Err(end) => Err(end),
    }
}

/// Fails if something is at the path of a new volume, other than an empty file, which a killed `init` leaves.
pub fn check_new(rt: &HostRuntime, path: &str) -> Result<(), End>
    ensures fault { IfErr result (λ end. IsTrue (is_fault_end end)) }
{
    match fs::symlink_metadata(rt, path) {
        Ok(found) if found.is_file() && found.len() == 0 => Ok(()),
        Ok(_) => Err(end_of_volume(rt.alloc(), path, Some(Cause::Taken))),
        Err(error) if error.kind() == ErrorKind::NotFound => Ok(()),
        Err(error) => Err(end_of_system(rt.alloc(), path, error)),
    }
}

/// Opens the files of a volume, and makes missing ones.
fn open_at<V: Start>(rt: &HostRuntime, path: &str, start: V) -> Result<Files<FileFrom<V>>, End>
    ensures fresh { IfOk result (λ files. IsFresh false files.db) }
    ensures fault { IfErr result (λ end. IsTrue (is_fault_end end)) }
{
    match open_files(rt, path, start) {
        Ok(files) => Ok(files),
        Err(End::Store(cause)) => Err(end_of_volume(rt.alloc(), path, cause)),
        Err(end) => Err(end),
    }
}

/// The end of a volume that is not taken together with its database.
pub fn end_of_taking<D: Disk>(alloc: Global, path: &str, why: TakeFault, disk: &D) -> End
    ensures fault { IsTrue (is_fault_end result) }
{
    match why {
        TakeFault::OutOfMemory => End::OutOfMemory,
        TakeFault::Store => end_of_volume(alloc, path, cause_of_disk(disk)),
        TakeFault::TooShort => end_of_volume(alloc, path, Some(Cause::TooShort)),
        TakeFault::OtherVolume => end_of_volume(alloc, path, Some(Cause::OtherVolume)),
    }
}

/// The cause of the failed calls of a volume.
pub fn cause_of_disk<D: Disk>(disk: &D) -> Option<Cause>
    ensures { result ≡ cause_of_calls (D.tally_of disk.now) (D.is_usable disk.now) }
{
    cause_of_calls(disk.tally(), disk.may_be_used())
}

/// An error of the system at the path of a volume.
fn end_of_system(alloc: Global, path: &str, error: io::Error) -> End
    ensures fault { IsTrue (is_fault_end result) }
{
    if error.kind() == ErrorKind::OutOfMemory {
        End::OutOfMemory
    } else {
        end_of_volume(alloc, path, cause_of_kind(error.kind()))
    }
}

/// The end of a failed volume at this path. Without memory for the path it has no cause.
pub fn end_of_volume(alloc: Global, path: &str, cause: Option<Cause>) -> End
    ensures store { IsTrue (is_store result) }
    ensures fault { IsTrue (is_fault_end result) }
{
    match String::from_str(alloc, path) {
        Ok(path) => End::Volume { cause, path },
        Err(_) => {
            drop(cause);
            End::Store(None)
        }
    }
}
