//! The changes of a name's owners.
ghost use Rattle.std.specs.Prelude.{◌≡◌, true};
ghost use Rattle.index_rules.specs.declared.change.Change.TheVariants.{AddOwner, RemoveOwner};
ghost use Rattle.index_plain.specs.Plain.{Makes, BecomesAfter, is_of_owner};

use crate::pairs;
use crate::plain::PlainBooks;
use index_names::NormalName;
use index_rules::{Change, UserId};
use std::alloc::{AllocError, Global};

impl PlainBooks {
    /// Makes a change of who owns a name. If that fails, the tables stay as they were.
    pub(super) fn make_of_owner(&mut self, alloc: Global, change: Change) -> Result<(), AllocError>
        requires owner { is_of_owner change ≡ true }
        ensures made { Makes change self.old self.new result }
    {
        match change {
            Change::AddOwner { name, user } => self.add_owner(alloc, &name, &user),
            Change::RemoveOwner { name, user } => {
                self.remove_owner(&name, &user);
                Ok(())
            }
            // `make` sends no other change here. One match over all of them would cost the prover more.
            _ => unreachable!(),
        }
    }

    /// The user owns the name too, and the case ends.
    fn add_owner(
        &mut self,
        alloc: Global,
        name: &NormalName,
        user: &UserId,
    ) -> Result<(), AllocError>
        ensures made { Makes (AddOwner name.now user.now) self.old self.new result }
    {
        pairs::put(alloc, &mut self.owners, name, user, ())?;
        self.end_case(name);
        Ok(())
    }

    /// The user no longer owns the name, and the case ends.
    fn remove_owner(&mut self, name: &NormalName, user: &UserId)
        ensures { BecomesAfter (RemoveOwner name.now user.now) self.old self.new }
    {
        self.end_case(name);
        pairs::remove(&mut self.owners, name, user);
    }
}
