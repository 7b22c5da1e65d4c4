//! What the counts of failures need of a result.
ghost use Rattle.std.specs.Prelude.{◌≡◌};
ghost use Rattle.index_io.specs.Counts.{next_count};
ghost use Rattle.index_rules.specs.StoreFaults.{ends_by_store, fails_by_store};
ghost use Rattle.index_rules.specs.Walks.{has_fault};

use index_rules::{Fault, WalkEnd};

/// The count of failures after one more call, up to 18,446,744,073,709,551,615.
pub fn next_count(failures: u64, is_right: bool) -> u64
    ensures { result ≡ next_count failures is_right }
{
    if is_right {
        failures
    } else {
        failures.saturating_add(1)
    }
}

/// Whether a fault ended the walk.
pub fn has_fault(ended: &Result<(), WalkEnd>) -> bool
    ensures { result ≡ has_fault ended.now }
{
    matches!(ended, Err(WalkEnd::OutOfMemory | WalkEnd::Store))
}

/// Whether a fault of the store ended the walk.
pub fn ends_by_store(ended: &Result<(), WalkEnd>) -> bool
    ensures { result ≡ ends_by_store ended.now }
{
    matches!(ended, Err(WalkEnd::Store))
}

/// Whether a call failed with a fault of the store.
pub fn fails_by_store<T>(done: &Result<T, Fault>) -> bool
    ensures { result ≡ fails_by_store done.now }
{
    matches!(done, Err(Fault::Store))
}
