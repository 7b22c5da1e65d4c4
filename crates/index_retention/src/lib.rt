//! Retention cases in the manner of PEP 541: the attempts to reach a name's owner, and when a
//! transfer to the candidate is ready. Kinds, means, numbers and times are the index's own.
#![tactic(auto)]

mod attempts;
mod fault;
mod laws;
mod transfer;

pub use attempts::{CaseKind, CaseState, Means, note};
pub use fault::CaseFault;
pub use laws::attempts_are_counted;
pub use transfer::may_transfer;
