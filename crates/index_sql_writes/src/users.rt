//! Changes of users.
ghost use Rattle.index_rules.specs.declared.change.Change.{Change};
ghost use Rattle.index_sql_writes.specs.ChangeAsks.{AreStepsOf};

use crate::step::{Put, Step, Steps};
use index_rules::{UserId, UserRecord};

/// The user has this record.
pub(crate) fn set_user<'a>(user: &'a UserId, account: &'a UserRecord) -> Steps<'a>
    ensures { AreStepsOf (Change.AddUser user.now account.now) result }
{
    Steps::first(Step::Put(Put::User(user, account)))
}
