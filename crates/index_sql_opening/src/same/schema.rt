//! Whole schemas, with their indexes and views.

ghost use Rattle.std.specs.Prelude.{◌≡◌, IsTrue};

use crate::same::Same;
use sqlite_schema::schema::{Index, Schema, View};

impl Same for Index {
    fn same(&self, other: &Index) -> bool {
        self.name.same(&other.name)
            && self.tree == other.tree
            && self.table == other.table
            && self.columns.same(&other.columns)
            && self.order == other.order
            && self.is_unique == other.is_unique
    }
}

impl Same for View {
    fn same(&self, other: &View) -> bool {
        self.name.same(&other.name)
            && self.tree == other.tree
            && self.sql.same(&other.sql)
            && self.foreign.same(&other.foreign)
            && self.binds == other.binds
            && self.is_bound == other.is_bound
    }
}

impl Same for Schema {
    fn same(&self, other: &Schema) -> bool {
        self.tables.same(&other.tables)
            && self.indexes.same(&other.indexes)
            && self.views.same(&other.views)
    }
}
