//! The standing of a name.
use crate::project::Project;
use crate::records::CaseRecord;
use crate::view::Owners;
use index_names::NormalName;

/// A held name, with its owners in byte order and its open case.
#[derive(Debug)]
pub struct HeldName {
    pub name: NormalName,
    pub project: Project,
    pub owners: Owners,
    pub case: Option<CaseRecord>,
}

// By hand: a drop is then one call at each exit of a function (docs/developers/PROOF-COSTS.md).
impl Drop for HeldName {
    fn drop(self) {
        let HeldName {
            name: _name,
            project: _project,
            owners: _owners,
            case: _case,
        } = self;
    }
}

/// The standing of a name.
#[derive(Debug, Drop)]
pub enum Standing {
    Free { name: NormalName },
    Prohibited { name: NormalName },
    Held(HeldName),
}
