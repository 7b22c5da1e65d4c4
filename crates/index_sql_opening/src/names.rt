//! Which of the tables of an index a schema has, by their names alone.
ghost use Rattle.std.specs.Prelude.{◌≡◌};
ghost use Rattle.std.specs.List.{list_any};
ghost use Rattle.index_sql_opening.specs.Names.{is_meta, is_of, has_meta, has_table};
ghost use Rattle.index_sql_opening.specs.Names.{has_any_of, has_all_of};
ghost use Rattle.index_sql_schema.specs.Schema.{index_schema};
ghost use Rattle.index_sql_schema.specs.FirstVersion.{first_version_schema};

use sqlite_schema::names::same_name;
use sqlite_schema::schema::{Schema, Table, View};

/// Whether the schema has a table of that name, even one that the database does not understand and keeps as it is.
pub fn has_table(schema: &Schema, name: &[u8]) -> bool
    ensures found { result ≡ has_table schema.now name.now }
{
    schema.table_named(name).is_some() || is_kept(schema.views.as_slice(), name)
}

/// Whether a table of that name is among those that the database keeps as they are.
fn is_kept(views: &[View], name: &[u8]) -> bool
    ensures found { result ≡ list_any (λ view. is_of view name.now) views.now }
{
    views.iter().any(|view| is_of(view, name))
}

/// Whether this is a table of that name which the database keeps as it is, or belongs to one.
fn is_of(view: &View, name: &[u8]) -> bool
    ensures found { result ≡ is_of view.now name.now }
{
    match &view.foreign {
        Some(table) => same_name(table.as_slice(), name),
        None => false,
    }
}

/// Whether the schema has a readable table `meta` with the columns in which an index keeps its version. A table `meta`
/// of another program has other columns.
pub fn has_meta(schema: &Schema) -> bool
    ensures found { result ≡ has_meta schema.now }
{
    schema.tables.as_slice().iter().any(|table| is_meta(table))
}

/// Whether this is a readable table `meta` with the columns of the version.
fn is_meta(table: &Table) -> bool
    ensures found { result ≡ is_meta table.now }
{
    table.is_named(b"meta")
        && table.column_named(b"id").is_some()
        && table.column_named(b"kind").is_some()
        && table.column_named(b"version").is_some()
}

/// Whether the schema has a table by the name of one of an index.
pub fn has_any_table(schema: &Schema) -> bool
    ensures found { result ≡ has_any_of schema.now index_schema.tables }
{
    has_table(schema, b"meta")
        || has_table(schema, b"users")
        || has_table(schema, b"names")
        || has_table(schema, b"owners")
        || has_table(schema, b"files")
        || has_table(schema, b"blobs")
        || has_table(schema, b"yanks")
        || has_table(schema, b"cases")
        || has_table(schema, b"bans")
}

/// Whether the schema has a table by each name of version 1. An index has one named `bans` too.
pub fn has_version_1_tables(schema: &Schema) -> bool
    ensures found { result ≡ has_all_of schema.now first_version_schema.tables }
{
    has_table(schema, b"meta")
        && has_table(schema, b"users")
        && has_table(schema, b"names")
        && has_table(schema, b"owners")
        && has_table(schema, b"files")
        && has_table(schema, b"blobs")
        && has_table(schema, b"yanks")
        && has_table(schema, b"cases")
}
