//! Equality that may err on one side, and the smallest parts of a schema.

ghost use Rattle.std.specs.Prelude.{◌≡◌, IsTrue};

use sqlite_value::keys::Order;
use sqlite_value::value::Bytes;

mod items;
mod schema;
mod tables;
mod terms;

/// A value that can be seen to be the same as another.
pub(crate) trait Same {
    /// Whether both were seen to be the same. If the result is false they may still be the same.
    fn same(&self, other: &Self) -> bool
        ensures equal { IsTrue result → self.now ≡ other.now };
}

impl Same for usize {
    fn same(&self, other: &usize) -> bool {
        *self == *other
    }
}

impl Same for Order {
    fn same(&self, other: &Order) -> bool {
        *self == *other
    }
}

impl Same for Bytes {
    fn same(&self, other: &Bytes) -> bool {
        self.as_slice() == other.as_slice()
    }
}
