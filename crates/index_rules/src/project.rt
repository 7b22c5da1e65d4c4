//! Held names.
ghost use Rattle.std.specs.Prelude.{◌≡◌, ◌<◌, ◌≤◌, ◌+◌, IfOk, SomeIff, nat_lt, not};
ghost use Rattle.index_rules.specs.Projects.{FitsProject, new_project, project_from, largest_quota, most_files};
ghost use Rattle.index_rules.specs.Effect.{later, with_file, without_file};

use index_text::Text;
use std::alloc::AllocError;
use std::marker::Model;

/// The quota of a name that was just claimed, in bytes.
const FIRST_QUOTA: u64 = 1_073_741_824;

/// The greatest quota, in bytes.
pub(crate) const LARGEST_QUOTA: u64 = 1_099_511_627_776;

/// The most undeleted files of a name.
const MOST_FILES: u64 = 9_223_372_036_854_775_807;

/// The record of a held name. Its charge is at most its quota, its quota at most 1,099,511,627,776 bytes, and its
/// undeleted files are at most 9,223,372,036,854,775,807.
#[derive(Clone, Debug)]
pub struct Project {
    shown: Text,
    quota: u64,
    charge: u64,
    undeleted: u64,
    last_upload: Option<u64>,
}

// By hand: each exit of a function then makes one call to drop (docs/developers/PROOF-COSTS.md).
impl Drop for Project {
    fn drop(self) {
        let Project {
            shown: _shown,
            quota: _quota,
            charge: _charge,
            undeleted: _undeleted,
            last_upload: _last_upload,
        } = self;
    }
}

impl Model for Project {
    ghost use Rattle.index_rules.specs.Projects.{FitsProject, Project};

    ghost Value = { Project };

    ghost view = { λ p. record {
      shown = p.shown;
      quota = p.quota;
      charge = p.charge;
      undeleted = p.undeleted;
      last_upload = p.last_upload;
    } };

    ghost invariant = { λ p. FitsProject p.quota p.charge p.undeleted };

    ghost inverse = { λ v. record {
      shown = v.shown;
      quota = v.quota;
      charge = v.charge;
      undeleted = v.undeleted;
      last_upload = v.last_upload;
    } };
}

impl Project {
    /// The held name with these parts, if they are valid: the charge is at most the quota, and neither the quota nor
    /// the count of undeleted files is above its limit.
    pub fn from_parts(
        shown: Text,
        quota: u64,
        charge: u64,
        undeleted: u64,
        last_upload: Option<u64>,
    ) -> Option<Project>
        ensures { SomeIff result (FitsProject quota charge undeleted)
            (project_from shown quota charge undeleted last_upload) }
    {
        if charge > quota || quota > LARGEST_QUOTA || undeleted > MOST_FILES {
            return None;
        }
        Some(Project {
            shown,
            quota,
            charge,
            undeleted,
            last_upload,
        })
    }

    /// A name that was just claimed in this spelling.
    pub(crate) fn new(shown: Text) -> Project
        ensures { result ≡ new_project shown }
    {
        Project {
            shown,
            quota: FIRST_QUOTA,
            charge: 0,
            undeleted: 0,
            last_upload: None,
        }
    }

    /// The shown name: the spelling of the last claim.
    pub fn shown(&self) -> &Text
        ensures { result.now ≡ self.now.shown }
    {
        &self.shown
    }

    /// The quota: how many bytes the undeleted files may have.
    pub fn quota(&self) -> u64
        ensures value { result ≡ self.now.quota }
        ensures within { result ≤ largest_quota }
    {
        self.quota
    }

    /// The charge: how many bytes the undeleted files have.
    pub fn charge(&self) -> u64
        ensures value { result ≡ self.now.charge }
        ensures within { result ≤ self.now.quota }
    {
        self.charge
    }

    /// How many undeleted files the name has.
    pub fn undeleted(&self) -> u64
        ensures value { result ≡ self.now.undeleted }
        ensures within { result ≤ most_files }
    {
        self.undeleted
    }

    /// The greatest moment of an upload since the last claim, in Unix seconds, if there was one.
    pub fn last_upload(&self) -> Option<u64>
        ensures { result ≡ self.now.last_upload }
    {
        self.last_upload
    }

    /// Whether the quota allows this many bytes more.
    pub(crate) fn has_room(&self, size: u64) -> bool
        ensures { result ≡ not (nat_lt self.now.quota (self.now.charge + size)) }
    {
        size <= self.quota - self.charge
    }

    /// Whether the name has fewer undeleted files than it may have.
    pub(crate) fn takes_more_files(&self) -> bool
        ensures { result ≡ nat_lt self.now.undeleted most_files }
    {
        self.undeleted < MOST_FILES
    }

    /// The project with another quota, in bytes.
    pub(crate) fn with_quota(&self, quota: u64) -> Result<Project, AllocError>
        requires charge { self.now.charge ≤ quota }
        requires quota { quota ≤ largest_quota }
        ensures { IfOk result (λ project. project ≡ record self.now { quota = quota }) }
    {
        let shown = self.shown.clone()?;
        Ok(Project {
            shown,
            quota,
            charge: self.charge,
            undeleted: self.undeleted,
            last_upload: self.last_upload,
        })
    }

    /// The project with one more undeleted file of this size in bytes, uploaded at this moment in Unix seconds.
    pub(crate) fn with_file(&self, size: u64, at: u64) -> Result<Project, AllocError>
        requires charge { self.now.charge + size ≤ self.now.quota }
        requires undeleted { self.now.undeleted < most_files }
        ensures { IfOk result (λ project. project ≡ with_file at size self.now) }
    {
        let shown = self.shown.clone()?;
        Ok(Project {
            shown,
            quota: self.quota,
            charge: self.charge + size,
            undeleted: self.undeleted + 1,
            last_upload: Some(latest(self.last_upload, at)),
        })
    }

    /// The project with one undeleted file less, of this size in bytes.
    pub(crate) fn without_file(&self, size: u64) -> Result<Project, AllocError>
        ensures { IfOk result (λ project. project ≡ without_file size self.now) }
    {
        let shown = self.shown.clone()?;
        Ok(Project {
            shown,
            quota: self.quota,
            charge: self.charge.saturating_sub(size),
            undeleted: self.undeleted.saturating_sub(1),
            last_upload: self.last_upload,
        })
    }
}

/// The greater of two moments, in Unix seconds.
fn latest(before: Option<u64>, at: u64) -> u64
    ensures { result ≡ later before at }
{
    match before {
        Some(before) => at.max(before),
        None => at,
    }
}
