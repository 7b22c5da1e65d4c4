//! Requests on files.
ghost use Rattle.std.specs.Prelude.{◌≡◌, [], Option, Some, IsTrue};
ghost use Rattle.index_rules.specs.declared.call.Request.TheVariants.{BanFile, Delete, Upload};
ghost use Rattle.index_digest.specs.Digest.{sha256};
ghost use Rattle.index_names.specs.FileName.{project_of};
ghost use Rattle.index_rules.specs.Requests.{AreFileParts};
ghost use Rattle.index_rules.specs.Results.{Returns};
ghost use Rattle.index_rules.specs.Texts.{is_text as is_text_lem};
ghost use Rattle.index_rules.specs.Facts.{facts_seen};
ghost use Rattle.index_rules.specs.Verdict.{is_other_file};
ghost use Rattle.index_rules.specs.Effect.{as_deleted as as_deleted_lem, project_left as project_left_lem, new_file};
ghost use Rattle.index_rules.specs.Decided.{DecidesIn, DecidesOnFile, FindsProject, Uploads};

use super::context::Context;
use super::{Decision, Stop};
use crate::answer::Refusal;
use crate::bytes::Bytes;
use crate::change::Change;
use crate::project::Project;
use crate::reading::{is_file, is_text, to_file, to_text};
use crate::records::FileRecord;
use index_digest::{Digest256, Sealed};
use index_names::{FileName, NormalName};
use std::alloc::{AllocError, Global};

/// The most bytes of a body.
const LARGEST_BODY: usize = 16_777_216;

/// Uploads a file to the project that its name spells. Refused, in this order, as BadFileName, BadText, BadDigest,
/// TooLarge, DigestMismatch, NoProject, NotOwner, FileNameTaken, FileBanned, OverQuota; Already if the file is
/// undeleted.
pub fn upload(
    context: &Context<'_>,
    file: &Bytes,
    sha256: &Bytes,
    body: Bytes,
    requires_python: &Bytes,
) -> Result<Decision, Stop>
    ensures { DecidesIn context.now (Upload file.now sha256.now body requires_python.now) result }
{
    if !is_file(file) {
        return Err(Stop::Refused(Refusal::BadFileName));
    }
    if !is_text(requires_python) {
        return Err(Stop::Refused(Refusal::BadText));
    }
    let Some(digest) = Digest256::read_hex(sha256.as_slice()) else {
        return Err(Stop::Refused(Refusal::BadDigest));
    };
    if body.as_slice().len() > LARGEST_BODY {
        return Err(Stop::Refused(Refusal::TooLarge));
    }
    match Sealed::new(body.into_vec(), digest) {
        Ok(body) => decide_upload(context, file, body, requires_python),
        Err(body) => {
            drop(body);
            Err(Stop::Refused(Refusal::DigestMismatch))
        }
    }
}

/// The decision on an upload whose parts are valid.
fn decide_upload(
    context: &Context<'_>,
    file: &Bytes,
    body: Sealed,
    requires_python: &Bytes,
) -> Result<Decision, Stop>
    requires parts { AreFileParts file.now requires_python.now }
    ensures { DecidesOnFile context.now file.now body requires_python.now result }
{
    match project_with(context, &body) {
        Ok(Some(project)) => upload_to(context, project, file, body, requires_python),
        Ok(None) => {
            drop(body);
            Ok(Decision::Already)
        }
        Err(stop) => {
            drop(body);
            Err(stop)
        }
    }
}

/// The project with one more file of these bytes, or `None` if that file is undeleted already.
fn project_with(context: &Context<'_>, body: &Sealed) -> Result<Option<Project>, Stop>
    ensures { FindsProject context.now body.now result }
{
    let size = body.bytes().len() as u64;
    let Some(project) = context.project() else {
        return Err(Stop::Refused(Refusal::NoProject));
    };
    if !context.owns() {
        return Err(Stop::Refused(Refusal::NotOwner));
    }
    let known = context.view.file.as_ref();
    if known.is_some_and(|known| is_other(known, &body.digest(), size)) {
        return Err(Stop::Refused(Refusal::FileNameTaken));
    }
    if context.view.is_banned {
        return Err(Stop::Refused(Refusal::FileBanned));
    }
    if known.is_some_and(|known| known.is_undeleted) {
        return Ok(None);
    }
    if !project.has_room(size) {
        return Err(Stop::Refused(Refusal::OverQuota));
    }
    if !project.takes_more_files() {
        return Err(Stop::OutOfMemory);
    }
    Ok(Some(project.with_file(size, context.at)?))
}

/// The upload of a file to its project, which has been charged for it.
fn upload_to(
    context: &Context<'_>,
    project: Project,
    file: &Bytes,
    body: Sealed,
    requires_python: &Bytes,
) -> Result<Decision, Stop>
    requires parts { AreFileParts file.now requires_python.now }
    ensures { Uploads context.now project file.now body requires_python.now result }
{
    match file_parts(context.alloc, file, &body, requires_python) {
        Ok((name, file, record)) => Ok(Decision::Change(Change::Upload {
            name,
            project,
            file,
            record,
            body,
            ends_case: context.view.case.is_some(),
        })),
        Err(_) => {
            drop(project);
            drop(body);
            Err(Stop::OutOfMemory)
        }
    }
}

/// The project, the name and the record of an uploaded file.
fn file_parts(
    alloc: Global,
    file: &Bytes,
    body: &Sealed,
    requires_python: &Bytes,
) -> Result<(NormalName, FileName, FileRecord), AllocError>
    requires parts { AreFileParts file.now requires_python.now }
    ensures { let known = new_file (sha256 body.now) file.now body.now requires_python.now in
        Returns result (project_of file.now, file.now, known) }
{
    let file = to_file(alloc, file)?;
    let name = file.project().clone()?;
    let record = record_of(alloc, &file, body, requires_python)?;
    Ok((name, file, record))
}

/// The record of an uploaded file.
fn record_of(
    alloc: Global,
    file: &FileName,
    body: &Sealed,
    requires_python: &Bytes,
) -> Result<FileRecord, AllocError>
    requires { IsTrue (is_text_lem requires_python.now) }
    ensures { Returns result (new_file (sha256 body.now) file.now body.now requires_python.now) }
{
    let project = file.project().clone()?;
    let release = file.release().clone()?;
    let requires_python = to_text(alloc, requires_python)?;
    Ok(FileRecord {
        project,
        release,
        digest: body.digest(),
        size: body.bytes().len() as u64,
        requires_python,
        is_undeleted: true,
    })
}

/// Whether the known file has another digest or another size.
fn is_other(known: &FileRecord, digest: &Digest256, size: u64) -> bool
    ensures { result ≡ is_other_file (Some digest.now) size (Some known.now) }
{
    !(*digest == known.digest && size == known.size)
}

/// Deletes a file; its record stays. Refused, in this order, as BadFileName, NoProject, NotOwner, NoFile; Already if
/// the file is not undeleted.
pub fn delete(context: &Context<'_>, file: &Bytes) -> Result<Decision, Stop>
    ensures { DecidesIn context.now (Delete file.now) result }
{
    if !is_file(file) {
        return Err(Stop::Refused(Refusal::BadFileName));
    }
    let Some(project) = context.project() else {
        return Err(Stop::Refused(Refusal::NoProject));
    };
    if !context.owns() {
        return Err(Stop::Refused(Refusal::NotOwner));
    }
    let Some(record) = &context.view.file else {
        return Err(Stop::Refused(Refusal::NoFile));
    };
    if !record.is_undeleted {
        return Ok(Decision::Already);
    }
    let project = project.without_file(record.size)?;
    let record = as_deleted(record)?;
    let file = to_file(context.alloc, file)?;
    let name = file.project().clone()?;
    Ok(Decision::Change(Change::Delete {
        name,
        project,
        file,
        record,
    }))
}

/// Bans a file for good, and deletes it if it is undeleted. Refused, in this order, as NotOffice, BadFileName, NoFile;
/// Already if it is banned.
pub fn ban_file(context: &Context<'_>, file: &Bytes) -> Result<Decision, Stop>
    ensures { DecidesIn context.now (BanFile file.now) result }
{
    if !context.caller.office {
        return Err(Stop::Refused(Refusal::NotOffice));
    }
    if !is_file(file) {
        return Err(Stop::Refused(Refusal::BadFileName));
    }
    let Some(record) = &context.view.file else {
        return Err(Stop::Refused(Refusal::NoFile));
    };
    if context.view.is_banned {
        return Ok(Decision::Already);
    }
    let record = as_deleted(record)?;
    let project = project_left(context)?;
    let file = to_file(context.alloc, file)?;
    let name = file.project().clone()?;
    Ok(Decision::Change(Change::BanFile {
        name,
        project,
        file,
        record,
    }))
}

/// The held name without the file, if the file is undeleted.
fn project_left(context: &Context<'_>) -> Result<Option<Project>, AllocError>
    ensures { Returns result (project_left_lem (facts_seen context.now.view.now (BanFile []))) }
{
    match (&context.view.file, context.project()) {
        (Some(known), Some(project)) if known.is_undeleted => {
            Ok(Some(project.without_file(known.size)?))
        }
        _ => Ok(None),
    }
}

/// The record of the file once it is deleted.
fn as_deleted(known: &FileRecord) -> Result<FileRecord, AllocError>
    ensures { Returns result (as_deleted_lem known.now) }
{
    let mut gone = known.clone()?;
    gone.is_undeleted = false;
    Ok(gone)
}
