//! Which tables the schema of a store has.
ghost use Rattle.std.specs.Prelude.{◌↔◌, ⊤, IsTrue};
ghost use Rattle.sqlite.specs.Effect.{IsDatabase};
ghost use Rattle.sqlite.specs.Held.{state};
ghost use Rattle.store_sql.specs.Forms.{table_of};
ghost use Rattle.store_sql.specs.Transactions.{Rests, Looks};
ghost use Rattle.package_tables.specs.Form.{IsPlaced};
ghost use Rattle.package_schema.specs.Looking.{Sees};
ghost use Rattle.package_schema.specs.Placing.{AreNamedPlaced, AreUsersPlaced, AreOwnPlaced, AreAllPlaced};
ghost use Rattle.package_schema.specs.Placing.{AreFirstUsersPlaced, AreFirstPlaced};

use crate::named_forms::{
    CONTENTS, RELATIONS, SPATIAL_REFERENCE_SYSTEMS, TILE_MATRICES, TILE_MATRIX_SETS,
};
use crate::own_forms::{
    HEADS, IDENTITIES, MEDIA, MOVED, RECEIPTS, ROWS, ROWS_MEDIA, ROWS_TILES, TILES, TILES_MEDIA,
};
use package_tables::fault::Fault;
use package_v1::names::are_free;
use sqlite::{Alter, Connection};
use sqlite_schema::schema::Schema;
use store_sql::forms::{TableForm, is_quiet};
use store_sql::keys::has_table;

/// Whether the schema has the tables that OGC GeoPackage 1.3 and OGC 18-000 name.
fn are_named_placed(schema: &Schema) -> bool
    ensures { IsTrue result ↔ AreNamedPlaced schema.now }
{
    let systems = has_table(schema, &SPATIAL_REFERENCE_SYSTEMS);
    let contents = has_table(schema, &CONTENTS);
    let sets = has_table(schema, &TILE_MATRIX_SETS);
    let levels = has_table(schema, &TILE_MATRICES);
    let relations = has_table(schema, &RELATIONS);
    systems & contents & sets & levels & relations
}

/// Whether it has the user tables and the mapping tables of the first version.
fn are_first_users_placed(schema: &Schema) -> bool
    ensures { IsTrue result ↔ AreFirstUsersPlaced schema.now }
{
    let tiles = has_table(schema, &TILES);
    let media = has_table(schema, &MEDIA);
    let rows = has_table(schema, &ROWS);
    let tiles_media = has_table(schema, &TILES_MEDIA);
    let rows_media = has_table(schema, &ROWS_MEDIA);
    tiles & media & rows & tiles_media & rows_media
}

/// Whether it has those of the second version.
fn are_users_placed(schema: &Schema) -> bool
    ensures { IsTrue result ↔ AreUsersPlaced schema.now }
{
    let first = are_first_users_placed(schema);
    let rows_tiles = has_table(schema, &ROWS_TILES);
    first & rows_tiles
}

/// Whether it has the tables of this profile.
fn are_own_placed(schema: &Schema) -> bool
    ensures { IsTrue result ↔ AreOwnPlaced schema.now }
{
    let heads = has_table(schema, &HEADS);
    let identities = has_table(schema, &IDENTITIES);
    let receipts = has_table(schema, &RECEIPTS);
    let moved = has_table(schema, &MOVED);
    heads & identities & receipts & moved
}

/// Whether the schema has all fifteen tables, and no foreign key that acts.
fn has_all_tables(schema: &Schema) -> bool
    ensures { IsTrue result ↔ AreAllPlaced schema.now }
{
    let quiet = is_quiet(schema);
    let named = are_named_placed(schema);
    let users = are_users_placed(schema);
    let own = are_own_placed(schema);
    quiet & named & users & own
}

/// Whether the schema has the fourteen tables of the first version and no foreign key that acts,
/// and nothing has a name that the second needs.
fn has_first_tables(schema: &Schema) -> bool
    ensures { IsTrue result ↔ AreFirstPlaced schema.now }
{
    let quiet = is_quiet(schema);
    let named = are_named_placed(schema);
    let users = are_first_users_placed(schema);
    let own = are_own_placed(schema);
    let free = are_free(schema);
    (quiet & named & users & own) & free
}

/// Asks nothing of the tables: a connection that answers is open.
fn answer_nothing<S: Alter>(conn: &mut Connection<S>) -> Result<(), Fault>
    requires { Rests (state S.Store conn.old) }
    ensures { Looks (Sees (λ _ _. ⊤)) (state S.Store conn.old) (state S.Store conn.new) result }
{
    conn.query_all("SELECT 1", &[])?;
    Ok(())
}

/// Whether the store has the table of the form, however its keys are spelled and whatever else it has.
pub(crate) fn is_placed<S: Alter>(
    conn: &mut Connection<S>,
    form: &TableForm<'_>,
) -> Result<bool, Fault>
    requires { Rests (state S.Store conn.old) }
    ensures { Looks (Sees (λ db found. IsDatabase db × (IsTrue found ↔ IsPlaced db.schema (table_of form.now))))
        (state S.Store conn.old) (state S.Store conn.new) result }
{
    answer_nothing(conn)?;
    Ok(has_table(conn.schema(), form))
}

/// Whether the store has all fifteen tables, and no foreign key that acts.
pub(crate) fn are_placed<S: Alter>(conn: &mut Connection<S>) -> Result<bool, Fault>
    requires { Rests (state S.Store conn.old) }
    ensures { Looks (Sees (λ db found. IsDatabase db × (IsTrue found ↔ AreAllPlaced db.schema)))
        (state S.Store conn.old) (state S.Store conn.new) result }
{
    answer_nothing(conn)?;
    Ok(has_all_tables(conn.schema()))
}

/// Whether the store has the fourteen tables of the first version and no foreign key that acts, and
/// nothing has a name that the second needs.
pub(crate) fn are_first_placed<S: Alter>(conn: &mut Connection<S>) -> Result<bool, Fault>
    requires { Rests (state S.Store conn.old) }
    ensures { Looks (Sees (λ db found. IsDatabase db × (IsTrue found ↔ AreFirstPlaced db.schema)))
        (state S.Store conn.old) (state S.Store conn.new) result }
{
    answer_nothing(conn)?;
    Ok(has_first_tables(conn.schema()))
}
