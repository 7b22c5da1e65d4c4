//! Tables, and what they state of their rows.

ghost use Rattle.std.specs.Prelude.{IsTrue};
ghost use Rattle.index_sql_opening.specs.SameTables.{HaveSameKeys, HaveSameRules};

use crate::same::Same;
use sqlite_schema::schema::{Column, Reference, Stamps, Table};

impl Same for Column {
    fn same(&self, other: &Column) -> bool {
        self.name.same(&other.name)
            && self.kind == other.kind
            && self.is_strict == other.is_strict
            && self.not_null == other.not_null
            && self.default.same(&other.default)
            && self.collation == other.collation
    }
}

impl Same for Reference {
    fn same(&self, other: &Reference) -> bool {
        self.columns.same(&other.columns)
            && self.parent.same(&other.parent)
            && self.parent_columns.same(&other.parent_columns)
            && self.on_delete == other.on_delete
            && self.on_update == other.on_update
            && self.is_deferred == other.is_deferred
    }
}

impl Same for Stamps {
    fn same(&self, other: &Stamps) -> bool {
        self.places.same(&other.places)
            && self.terms.same(&other.terms)
            && self.formats.same(&other.formats)
    }
}

/// Whether two tables are seen to have the same keys and orders.
fn same_keys(first: &Table, second: &Table) -> bool
    ensures keys { IsTrue result → HaveSameKeys first.now second.now }
{
    first.key == second.key
        && first.primary.same(&second.primary)
        && first.uniques.same(&second.uniques)
        && first.orders.same(&second.orders)
}

/// Whether two tables are seen to have the same checks, references and computed columns.
fn same_rules(first: &Table, second: &Table) -> bool
    ensures rules { IsTrue result → HaveSameRules first.now second.now }
{
    first.checks.same(&second.checks)
        && first.references.same(&second.references)
        && first.computed.same(&second.computed)
        && first.stamps.same(&second.stamps)
        && first.is_counted == second.is_counted
}

impl Same for Table {
    fn same(&self, other: &Table) -> bool {
        self.name.same(&other.name)
            && self.tree == other.tree
            && self.columns.same(&other.columns)
            && same_keys(self, other)
            && same_rules(self, other)
    }
}
