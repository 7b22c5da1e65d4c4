//! Lists and options, item by item.

ghost use Rattle.std.specs.Prelude.{◌≡◌, IsTrue};

use crate::same::Same;
use sqlite_items::Items;

/// Whether two lists are seen to have the same items in the same order.
fn same_slices<T: Same>(first: &[T], second: &[T]) -> bool
    ensures equal { IsTrue result → first.now ≡ second.now }
{
    if first.len() != second.len() {
        return false;
    }
    for at in 0..first.len() {
        if !first[at].same(&second[at]) {
            return false;
        }
    }
    true
}

impl<T: Same> Same for Items<T> {
    fn same(&self, other: &Items<T>) -> bool {
        same_slices(self.as_slice(), other.as_slice())
    }
}

impl<T: Same> Same for Option<T> {
    fn same(&self, other: &Option<T>) -> bool {
        match (self, other) {
            (Some(first), Some(second)) => first.same(second),
            (None, None) => true,
            _ => false,
        }
    }
}
