//! The changes of a case: it is opened, goes on or ends.
ghost use Rattle.std.specs.Prelude.{◌≡◌, true};
ghost use Rattle.index_rules.specs.declared.change.Change.TheVariants.{Transfer};
ghost use Rattle.index_plain.specs.Plain.{Makes, plain_tables, is_of_case, without_case};

use crate::plain::PlainBooks;
use crate::{pairs, table};
use index_names::NormalName;
use index_rules::{Change, UserId};
use std::alloc::{AllocError, Global};

impl PlainBooks {
    /// Makes a change of a case. If that fails, the tables stay as they were.
    pub(super) fn make_of_case(&mut self, alloc: Global, change: Change) -> Result<(), AllocError>
        requires case { is_of_case change ≡ true }
        ensures made { Makes change self.old self.new result }
    {
        match change {
            Change::OpenCase { name, case } | Change::RecordAttempt { name, case } => {
                table::put(&mut self.cases, &name, case)
            }
            Change::Transfer { name, candidate } => self.transfer(alloc, &name, &candidate),
            Change::CloseCase { name } | Change::AnswerCase { name } => {
                self.end_case(&name);
                Ok(())
            }
            // `make` sends no other change here. One match over all of them would cost the prover more.
            _ => unreachable!(),
        }
    }

    /// Ends the case of a name, if one is open.
    pub(super) fn end_case(&mut self, name: &NormalName)
        ensures tables { plain_tables self.new ≡ without_case name.now (plain_tables self.old) }
        ensures rest { self.new ≡ record self.old { cases = self.new.cases } }
    {
        table::remove(&mut self.cases, name);
    }

    /// The candidate alone owns the name, and the case ends.
    fn transfer(
        &mut self,
        alloc: Global,
        name: &NormalName,
        candidate: &UserId,
    ) -> Result<(), AllocError>
        ensures made { Makes (Transfer name.now candidate.now) self.old self.new result }
    {
        pairs::put_alone(alloc, &mut self.owners, name, candidate, ())?;
        self.end_case(name);
        Ok(())
    }
}
