//! The rules of the index: requests, the tables that they read and write, and the decision on each.
#![tactic(auto)]

mod answer;
mod books;
mod bytes;
mod call;
mod change;
mod decision;
mod keys;
pub mod laws;
mod open;
mod project;
mod reading;
mod records;
mod rows;
mod standing;
mod user;
mod view;

pub use answer::{Answer, Fault, Refusal};
pub use books::Books;
pub use bytes::Bytes;
pub use call::{Call, Request};
pub use change::Change;
pub use decision::{Decision, Stop, decide};
pub use keys::Keys;
pub use open::{OpenFault, first_user};
pub use project::Project;
pub use reading::read_token;
pub use records::{CaseRecord, FileRecord, NameRecord, UserRecord};
pub use rows::{FileRow, NameRow, Taker, WalkEnd};
pub use standing::{HeldName, Standing};
pub use user::{UserFault, UserId};
pub use view::{Caller, FilesSeen, NameSeen, Owners, UsersSeen, View};
