//! The changes of a name's state: it is claimed, relinquished, prohibited or allowed.
ghost use Rattle.std.specs.Prelude.{◌≡◌, true};
ghost use Rattle.index_rules.specs.declared.change.Change.TheVariants.{Claim, Prohibit, Relinquish, SetQuota};
ghost use Rattle.index_plain.specs.Plain.{BecomesBy, Makes, BecomesAfter, is_of_name, without_all_but_record, without_yanks_and_case};

use crate::plain::PlainBooks;
use crate::{name_files, pairs, table};
use index_names::NormalName;
use index_rules::{Change, NameRecord, Project, UserId};
use std::alloc::{AllocError, Global};

impl PlainBooks {
    /// Makes a change of the state of a name. If that fails, the tables stay as they were.
    pub(super) fn make_of_name(&mut self, alloc: Global, change: Change) -> Result<(), AllocError>
        requires name { is_of_name change ≡ true }
        ensures made { Makes change self.old self.new result }
    {
        match change {
            Change::SetQuota { name, project } => self.set_quota(&name, project),
            Change::Claim {
                name,
                project,
                owner,
            } => self.claim(alloc, &name, project, &owner),
            Change::Relinquish { name } | Change::Allow { name } => {
                self.relinquish(&name);
                Ok(())
            }
            Change::Prohibit { name } => self.prohibit(&name),
            // `make` sends no other change here. One match over all of them would cost the prover more.
            _ => unreachable!(),
        }
    }

    /// The name is held, with this record.
    fn set_quota(&mut self, name: &NormalName, project: Project) -> Result<(), AllocError>
        ensures made { Makes (SetQuota name.now project) self.old self.new result }
    {
        table::put(&mut self.names, name, NameRecord::Held(project))
    }

    /// The name is held, the user alone owns it, no release of it is yanked, and it has no case.
    fn claim(
        &mut self,
        alloc: Global,
        name: &NormalName,
        project: Project,
        owner: &UserId,
    ) -> Result<(), AllocError>
        ensures made { Makes (Claim name.now project owner.now) self.old self.new result }
    {
        let alone = table::one(alloc, owner, ())?;
        let held = NameRecord::Held(project);
        table::put_both(&mut self.owners, name, alone, &mut self.names, name, held)?;
        self.end_yanks_and_case(name);
        Ok(())
    }

    /// The name is free, without owners, yanks and a case.
    fn relinquish(&mut self, name: &NormalName)
        ensures { BecomesAfter (Relinquish name.now) self.old self.new }
    {
        self.clear(name);
        table::remove(&mut self.names, name);
    }

    /// The name is prohibited, without owners, yanks and a case, and its files are deleted.
    fn prohibit(&mut self, name: &NormalName) -> Result<(), AllocError>
        ensures made { Makes (Prohibit name.now) self.old self.new result }
    {
        table::put(&mut self.names, name, NameRecord::Prohibited)?;
        self.clear(name);
        name_files::drop_bodies(&mut self.bodies, &self.files, name);
        name_files::mark_deleted(&mut self.files, name);
        Ok(())
    }

    /// Removes the owners, the yanks and the case of a name.
    #[tactic(auto, using(crate::proofs::OwnerLemmas::name_gone))]
    fn clear(&mut self, name: &NormalName)
        ensures { BecomesBy (without_all_but_record name.now) self.old self.new }
    {
        pairs::clear(&mut self.owners, name);
        self.end_yanks_and_case(name);
    }

    /// Removes the yanks and the case of a name.
    #[tactic(auto, using(crate::proofs::OwnerLemmas::name_gone))]
    fn end_yanks_and_case(&mut self, name: &NormalName)
        ensures { BecomesBy (without_yanks_and_case name.now) self.old self.new }
    {
        pairs::clear(&mut self.yanks, name);
        self.end_case(name);
    }
}
