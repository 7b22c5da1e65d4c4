//! The changes of a release: of its files and its yank.
ghost use Rattle.std.specs.Prelude.{◌≡◌, true};
ghost use Rattle.index_rules.specs.declared.change.Change.TheVariants.{Unyank, Yank};
ghost use Rattle.index_plain.specs.Plain.{Makes, BecomesAfter, is_of_release};

use crate::pairs;
use crate::plain::PlainBooks;
use index_names::{NormalName, Release};
use index_rules::Change;
use index_text::Text;
use std::alloc::{AllocError, Global};

impl PlainBooks {
    /// Makes a change of a release. If that fails, the tables stay as they were.
    pub(super) fn make_of_release(
        &mut self,
        alloc: Global,
        change: Change,
    ) -> Result<(), AllocError>
        requires release { is_of_release change ≡ true }
        ensures made { Makes change self.old self.new result }
    {
        match change {
            Change::Upload {
                name,
                project,
                file,
                record,
                body,
                ends_case,
            } => self.upload(&name, project, &file, record, body, ends_case),
            Change::Delete {
                name,
                project,
                file,
                record,
            } => self.delete(&name, project, &file, record),
            Change::BanFile {
                name,
                project,
                file,
                record,
            } => self.ban_file(&name, project, &file, record),
            Change::Yank {
                name,
                release,
                reason,
            } => self.add_yank(alloc, &name, &release, reason),
            Change::Unyank { name, release } => {
                self.remove_yank(&name, &release);
                Ok(())
            }
            // `make` sends no other change here. One match over all of them would cost the prover more.
            _ => unreachable!(),
        }
    }

    /// The release is yanked, for this reason, and the case ends.
    fn add_yank(
        &mut self,
        alloc: Global,
        name: &NormalName,
        release: &Release,
        reason: Text,
    ) -> Result<(), AllocError>
        ensures made { Makes (Yank name.now release.now reason) self.old self.new result }
    {
        pairs::put(alloc, &mut self.yanks, name, release, reason)?;
        self.end_case(name);
        Ok(())
    }

    /// The release is no longer yanked, and the case ends.
    fn remove_yank(&mut self, name: &NormalName, release: &Release)
        ensures { BecomesAfter (Unyank name.now release.now) self.old self.new }
    {
        self.end_case(name);
        pairs::remove(&mut self.yanks, name, release);
    }
}
