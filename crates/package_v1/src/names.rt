//! Whether a schema has objects of names that a migration makes.
ghost use Rattle.std.specs.Prelude.{◌≡◌, ◌↔◌, IsTrue};
ghost use Rattle.sqlite_schema.specs.Names.{table_named, index_named, view_named};
ghost use Rattle.store_sql.specs.Blank.{IsFree};
ghost use Rattle.package_v1.specs.FirstVersion.{AreFree};

use sqlite_schema::names::same_name;
use sqlite_schema::schema::Schema;

fn table_place(schema: &Schema, name: &[u8]) -> Option<usize>
    ensures { result ≡ table_named schema.now name.now }
{
    schema
        .tables
        .as_slice()
        .iter()
        .position(|table| same_name(table.name.as_slice(), name))
}

fn view_place(schema: &Schema, name: &[u8]) -> Option<usize>
    ensures { result ≡ view_named schema.now name.now }
{
    schema
        .views
        .as_slice()
        .iter()
        .position(|view| same_name(view.name.as_slice(), name))
}

fn index_place(schema: &Schema, name: &[u8]) -> Option<usize>
    ensures { result ≡ index_named schema.now name.now }
{
    schema
        .indexes
        .as_slice()
        .iter()
        .position(|index| same_name(index.name.as_slice(), name))
}

/// Whether no table, view or index of the schema has the name.
fn is_free(schema: &Schema, name: &[u8]) -> bool
    ensures { IsTrue result ↔ IsFree schema.now name.now }
{
    table_place(schema, name).is_none()
        && view_place(schema, name).is_none()
        && index_place(schema, name).is_none()
}

/// Whether the names that a migration makes are free: that of the third mapping table, and that of
/// its index.
pub fn are_free(schema: &Schema) -> bool
    ensures { IsTrue result ↔ AreFree schema.now }
{
    is_free(schema, b"rows_tiles") && is_free(schema, b"by_rows_tiles")
}
