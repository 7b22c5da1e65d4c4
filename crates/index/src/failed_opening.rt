//! Two files that were not opened.
use crate::end::End;
use sqlite::Leftover;
use sqlite_disk::Disk;

/// Two files that were not opened as a database.
pub struct FailedOpening<D: Disk> {
    /// Why they were not.
    pub why: End,
    /// What is left of them, if they could be opened as files.
    pub left: Option<Leftover<D>>,
}
