//! Whether a schema has a table that a program knows, however its keys are spelled.

ghost use Rattle.std.specs.Prelude.{◌≡◌, ◌↔◌, ◌==◌, IsTrue, false, map, [], nat_le, ◌^◌};
ghost use Rattle.std.specs.List.{AllByRecursion, position_from};
ghost use Rattle.sqlite_value.specs.Keys.{plain, undirected};
ghost use Rattle.store_sql.specs.Forms.{reference_of, table_of};
ghost use Rattle.store_sql.specs.Spelling.{HasPlace, IsSameKey, HasKey, AreSameKeys, Names, IsMeant, IsWritten};
ghost use Rattle.store_sql.specs.Spelling.{IsSpelling, IsPlaced, spelled, spelling_of};

use crate::forms::{
    ReferenceForm, TableForm, are_columns, are_places, has_no_terms, is_name, is_reference,
    place_of,
};
use sqlite_items::Items;
use sqlite_schema::schema::{Action, Reference, Schema, Table};
use sqlite_value::keys::Order;

fn has_place(key: &[usize], place: usize) -> bool
    ensures { IsTrue result ↔ HasPlace key.now place }
{
    key.iter().any(|other| *other == place)
}

fn is_within(places: &[usize], key: &[usize]) -> bool
    ensures { IsTrue result ↔ AllByRecursion (HasPlace key.now) places.now }
{
    for place in places {
        if !has_place(key, *place) {
            return false;
        }
    }
    true
}

fn is_same_key(written: &[usize], meant: &[usize]) -> bool
    ensures { IsTrue result ↔ IsSameKey written.now meant.now }
{
    is_within(written, meant) & is_within(meant, written)
}

fn has_key(uniques: &[Items<usize>], meant: &[usize]) -> bool
    ensures { IsTrue result ↔ HasKey uniques.now meant.now }
{
    uniques.iter().any(|key| is_same_key(meant, key.as_slice()))
}

fn is_key_of(written: &[usize], forms: &[&[usize]]) -> bool
    ensures { IsTrue result ↔ HasKey (map (λ u. u.now) forms.now) written.now }
{
    forms.iter().any(|meant| is_same_key(written, meant))
}

fn are_keys_of(uniques: &[Items<usize>], forms: &[&[usize]]) -> bool
    ensures { IsTrue result
        ↔ AllByRecursion (HasKey (map (λ u. u.now) forms.now)) uniques.now }
{
    for key in uniques {
        if !is_key_of(key.as_slice(), forms) {
            return false;
        }
    }
    true
}

fn have_keys(uniques: &[Items<usize>], forms: &[&[usize]]) -> bool
    ensures { IsTrue result ↔ AllByRecursion (λ m. HasKey uniques.now m.now) forms.now }
{
    for meant in forms {
        if !has_key(uniques, meant) {
            return false;
        }
    }
    true
}

fn are_same_keys(uniques: &[Items<usize>], forms: &[&[usize]]) -> bool
    ensures { IsTrue result ↔ AreSameKeys uniques.now (map (λ u. u.now) forms.now) }
{
    are_keys_of(uniques, forms) & have_keys(uniques, forms)
}

/// Whether an index compares by bytes, in whatever direction.
fn is_plain(order: &Order) -> bool
    ensures { IsTrue result ↔ (undirected order.now ≡ plain) }
{
    order.digits & 0o666_666_666_666_666_666_666 == 0
}

fn are_plain(orders: &[Order]) -> bool
    ensures { IsTrue result ↔ AllByRecursion (λ o. undirected o ≡ plain) orders.now }
{
    orders.iter().all(|order| is_plain(order))
}

/// Whether a reference is that of the form but without columns, so that it means the primary key.
fn is_bare(reference: &Reference, form: &ReferenceForm<'_>) -> bool
    ensures { IsTrue result
        ↔ (reference.now ≡ record (reference_of form.now) { parent_columns = [] }) }
{
    are_places(&reference.columns, form.columns)
        && is_name(&reference.parent, form.parent)
        && reference.parent_columns.is_empty()
        && reference.on_delete == Action::NoAction
        && reference.on_update == Action::NoAction
        && !reference.is_deferred
}

fn names_form(reference: &Reference, form: &ReferenceForm<'_>) -> bool
    ensures { IsTrue result ↔ Names reference.now (reference_of form.now) }
{
    is_reference(reference, form) || is_bare(reference, form)
}

fn has_reference(references: &[Reference], form: &ReferenceForm<'_>) -> bool
    ensures { IsTrue result ↔ IsWritten references.now (reference_of form.now) }
{
    references
        .iter()
        .any(|reference| names_form(reference, form))
}

fn is_reference_of(reference: &Reference, forms: &[ReferenceForm<'_>]) -> bool
    ensures { IsTrue result ↔ IsMeant (map reference_of forms.now) reference.now }
{
    forms.iter().any(|form| names_form(reference, form))
}

fn are_references_of(references: &[Reference], forms: &[ReferenceForm<'_>]) -> bool
    ensures { IsTrue result ↔ AllByRecursion (IsMeant (map reference_of forms.now)) references.now }
{
    for reference in references {
        if !is_reference_of(reference, forms) {
            return false;
        }
    }
    true
}

fn are_written(references: &[Reference], forms: &[ReferenceForm<'_>]) -> bool
    ensures { IsTrue result ↔ AllByRecursion (λ f. IsWritten references.now (reference_of f)) forms.now }
{
    for form in forms {
        if !has_reference(references, form) {
            return false;
        }
    }
    true
}

fn have_references(references: &[Reference], forms: &[ReferenceForm<'_>]) -> bool
    ensures { IsTrue result ↔ AllByRecursion (IsWritten references.now) (map reference_of forms.now) }
{
    are_written(references, forms)
}

/// Whether the keys of the table are those of the form.
fn has_keys_of(table: &Table, form: &TableForm<'_>) -> bool
    ensures { IsTrue result ↔ IsSpelling (table_of form.now 0) (spelling_of table.now) }
{
    let primary = is_same_key(table.primary.as_slice(), form.primary);
    let uniques = are_same_keys(table.uniques.as_slice(), form.uniques);
    let orders = are_plain(table.orders.as_slice());
    let meant = are_references_of(table.references.as_slice(), form.references);
    let written = have_references(table.references.as_slice(), form.references);
    primary & uniques & orders & meant & written
}

/// Whether the table is that of the form, whatever its keys are.
fn has_columns_of(table: &Table, form: &TableForm<'_>) -> bool
    ensures { IsTrue result ↔ (table.now ≡ spelled (table_of form.now) (spelling_of table.now)) }
{
    is_name(&table.name, form.name)
        && are_columns(table.columns.as_slice(), form.columns)
        && table.key == form.key
        && has_no_terms(&table.checks)
        && table.computed.is_empty()
        && table.stamps.places.is_empty()
        && has_no_terms(&table.stamps.terms)
        && table.stamps.formats.is_empty()
        && table.is_counted == form.is_counted
}

fn place_of_tree(tables: &[Table], tree: u32) -> Option<usize>
    ensures { result ≡ position_from (λ t. t.tree == tree) 0 tables.now }
{
    tables.iter().position(|table| table.tree == tree)
}

fn is_first_of_tree(tables: &[Table], tree: u32, at: usize) -> bool
    ensures { IsTrue result ↔ (position_from (λ t. t.tree == tree) 0 tables.now ≡ Some at) }
{
    place_of_tree(tables, tree) == Some(at)
}

fn is_low(tree: u32) -> bool
    ensures { IsTrue result ↔ (nat_le (2 ^ 31) tree ≡ false) }
{
    tree < 1 << 31
}

/// Whether the schema has the table of the form, whatever tree it has and however its keys are
/// spelled. A number from 2^31 on is refused, since the engine keeps those.
pub fn has_table(schema: &Schema, form: &TableForm<'_>) -> bool
    ensures { IsTrue result ↔ IsPlaced schema.now (table_of form.now) }
{
    let Some(at) = place_of(schema, form.name) else {
        return false;
    };
    let Some(table) = schema.tables.get(at) else {
        return false;
    };
    let columns = has_columns_of(table, form);
    let keys = has_keys_of(table, form);
    let first = is_first_of_tree(schema.tables.as_slice(), table.tree, at);
    columns & keys & first & is_low(table.tree)
}
