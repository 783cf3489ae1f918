//! Whether a table of a schema is one that a program knows, and where it stands.

ghost use Rattle.std.specs.Prelude.{◌≡◌, ◌↔◌, ◌==◌, ℕ, IsTrue, IfSome, IfNone, map, find};
ghost use Rattle.std.specs.Prelude.{option_map, []};
ghost use Rattle.std.specs.List.{AllByRecursion};
ghost use Rattle.sqlite_schema.specs.Names.{table_named};
ghost use Rattle.store_sql.specs.Forms.{column_of, reference_of, table_of};
ghost use Rattle.store_sql.specs.Known.{HasTable, IsInert, IsQuiet};

use sqlite_items::Items;
use sqlite_schema::code::Terms;
use sqlite_schema::names::same_name;
use sqlite_schema::schema::{Action, Column, Kind, Reference, Schema, Table};
use sqlite_value::keys::{Collation, Order};
use sqlite_value::value::{Bytes, Value};

/// A column with no default, whose texts compare by their bytes.
#[derive(Clone, Copy)]
pub struct ColumnForm<'a> {
    pub name: &'a [u8],
    pub kind: Kind,
    /// Whether the table is STRICT.
    pub is_strict: bool,
    pub not_null: bool,
}

/// `FOREIGN KEY (columns) REFERENCES parent (parent_columns)`, checked at once and with no action.
#[derive(Clone, Copy)]
pub struct ReferenceForm<'a> {
    /// The places of the columns, which count from 1. 0 is the INTEGER PRIMARY KEY.
    pub columns: &'a [usize],
    pub parent: &'a [u8],
    pub parent_columns: &'a [&'a [u8]],
}

/// A table as the schema keeps it, but for the number of its tree: with no CHECK and no default.
#[derive(Clone, Copy)]
pub struct TableForm<'a> {
    pub name: &'a [u8],
    pub columns: &'a [ColumnForm<'a>],
    /// The column that is the INTEGER PRIMARY KEY, by its place from 0.
    pub key: Option<usize>,
    /// The places of the PRIMARY KEY, which count from 1. 0 is the INTEGER PRIMARY KEY.
    pub primary: &'a [usize],
    pub uniques: &'a [&'a [usize]],
    /// The order of the index of each UNIQUE.
    pub orders: &'a [Order],
    pub references: &'a [ReferenceForm<'a>],
    /// AUTOINCREMENT
    pub is_counted: bool,
}

fn is_null(value: &Value) -> bool
    ensures { IsTrue result ↔ (value.now ≡ Value.Null) }
{
    match value {
        Value::Null => true,
        _ => false,
    }
}

fn is_column(column: &Column, form: &ColumnForm<'_>) -> bool
    ensures { IsTrue result ↔ (column.now ≡ column_of form.now) }
{
    column.name.as_slice() == form.name
        && column.kind == form.kind
        && column.is_strict == form.is_strict
        && column.not_null == form.not_null
        && is_null(&column.default)
        && column.collation == Collation::Binary
}

pub(crate) fn are_places(places: &Items<usize>, form: &[usize]) -> bool
    ensures { IsTrue result ↔ (places.now ≡ form.now) }
{
    places.as_slice() == form
}

fn is_order(order: &Order, form: &Order) -> bool
    ensures { IsTrue result ↔ (order.now ≡ form.now) }
{
    order.digits == form.digits
}

pub(crate) fn is_name(name: &Bytes, form: &[u8]) -> bool
    ensures { IsTrue result ↔ (name.now ≡ form.now) }
{
    name.as_slice() == form
}

pub(crate) fn has_no_terms(terms: &Terms) -> bool
    ensures { IsTrue result ↔ (terms.now ≡ []) }
{
    terms.roots.is_empty()
}

pub(crate) fn are_columns(columns: &[Column], forms: &[ColumnForm<'_>]) -> bool
    ensures { IsTrue result ↔ (columns.now ≡ map column_of forms.now) }
{
    if columns.len() != forms.len() {
        return false;
    }
    for i in 0..columns.len() {
        if !is_column(&columns[i], &forms[i]) {
            return false;
        }
    }
    true
}

fn are_uniques(uniques: &[Items<usize>], forms: &[&[usize]]) -> bool
    ensures { IsTrue result ↔ (uniques.now ≡ map (λ u. u.now) forms.now) }
{
    if uniques.len() != forms.len() {
        return false;
    }
    for i in 0..uniques.len() {
        if !are_places(&uniques[i], forms[i]) {
            return false;
        }
    }
    true
}

fn are_orders(orders: &[Order], forms: &[Order]) -> bool
    ensures { IsTrue result ↔ (orders.now ≡ forms.now) }
{
    if orders.len() != forms.len() {
        return false;
    }
    for i in 0..orders.len() {
        if !is_order(&orders[i], &forms[i]) {
            return false;
        }
    }
    true
}

fn are_names(names: &[Bytes], forms: &[&[u8]]) -> bool
    ensures { IsTrue result ↔ (names.now ≡ map (λ n. n.now) forms.now) }
{
    if names.len() != forms.len() {
        return false;
    }
    for i in 0..names.len() {
        if !is_name(&names[i], forms[i]) {
            return false;
        }
    }
    true
}

pub(crate) fn is_reference(reference: &Reference, form: &ReferenceForm<'_>) -> bool
    ensures { IsTrue result ↔ (reference.now ≡ reference_of form.now) }
{
    are_places(&reference.columns, form.columns)
        && is_name(&reference.parent, form.parent)
        && are_names(reference.parent_columns.as_slice(), form.parent_columns)
        && reference.on_delete == Action::NoAction
        && reference.on_update == Action::NoAction
        && !reference.is_deferred
}

fn are_references(references: &[Reference], forms: &[ReferenceForm<'_>]) -> bool
    ensures { IsTrue result ↔ (references.now ≡ map reference_of forms.now) }
{
    if references.len() != forms.len() {
        return false;
    }
    for i in 0..references.len() {
        if !is_reference(&references[i], &forms[i]) {
            return false;
        }
    }
    true
}

/// Whether the table is that of the form, whatever tree it has.
pub fn is_table(table: &Table, form: &TableForm<'_>) -> bool
    ensures { IsTrue result ↔ (table.now ≡ table_of form.now table.now.tree) }
{
    is_name(&table.name, form.name)
        && are_columns(table.columns.as_slice(), form.columns)
        && table.key == form.key
        && are_places(&table.primary, form.primary)
        && are_uniques(table.uniques.as_slice(), form.uniques)
        && are_orders(table.orders.as_slice(), form.orders)
        && has_no_terms(&table.checks)
        && are_references(table.references.as_slice(), form.references)
        && table.computed.is_empty()
        && table.stamps.places.is_empty()
        && has_no_terms(&table.stamps.terms)
        && table.stamps.formats.is_empty()
        && table.is_counted == form.is_counted
}

pub(crate) fn place_of(schema: &Schema, name: &[u8]) -> Option<usize>
    ensures { result ≡ table_named schema.now name.now }
{
    schema
        .tables
        .as_slice()
        .iter()
        .position(|table| same_name(table.name.as_slice(), name))
}

fn first_of_tree(tables: &[Table], tree: u32) -> Option<&Table>
    ensures { option_map (λ t. t.now) result ≡ find (λ t. t.tree == tree) tables.now }
{
    tables.iter().find(|table| table.tree == tree)
}

fn is_first_of_tree(tables: &[Table], form: &TableForm<'_>, tree: u32) -> bool
    ensures { IsTrue result
        ↔ (find (λ t. t.tree == tree) tables.now ≡ Some (table_of form.now tree)) }
{
    match first_of_tree(tables, tree) {
        Some(table) => table.tree == tree && is_table(table, form),
        None => false,
    }
}

/// Where the schema has the table of the form, and the number of its tree: every statement on the
/// table means there what it says. A number from 2^31 on is refused, since the engine keeps those.
pub fn find_table(schema: &Schema, form: &TableForm<'_>) -> Option<(usize, u32)>
    ensures found { IfSome result (λ place.
        HasTable schema.now place.0 (table_of form.now place.1)) }
    ensures none { IfNone result ((at tree : ℕ)
        → HasTable schema.now at (table_of form.now tree) → ⊥) }
{
    let at = place_of(schema, form.name)?;
    let table = schema.tables.get(at)?;
    let tree = table.tree;
    let is_known = is_table(table, form)
        && tree < 1 << 31
        && is_first_of_tree(schema.tables.as_slice(), form, tree);
    if is_known { Some((at, tree)) } else { None }
}

/// SQLite's own table of the highest rowids, which it makes with the first table that counts.
pub const COUNTERS: TableForm<'static> = TableForm {
    name: b"sqlite_sequence",
    columns: &[
        ColumnForm {
            name: b"name",
            kind: Kind::Any,
            is_strict: false,
            not_null: false,
        },
        ColumnForm {
            name: b"seq",
            kind: Kind::Any,
            is_strict: false,
            not_null: false,
        },
    ],
    key: None,
    primary: &[],
    uniques: &[],
    orders: &[],
    references: &[],
    is_counted: false,
};

fn has_no_action(reference: &Reference) -> bool
    ensures { IsTrue result
        ↔ ((reference.now.on_delete ≡ Action.NoAction) × (reference.now.on_update ≡ Action.NoAction)) }
{
    reference.on_delete == Action::NoAction && reference.on_update == Action::NoAction
}

fn have_no_actions(references: &[Reference]) -> bool
    ensures { IsTrue result
        ↔ AllByRecursion (λ r. (r.on_delete ≡ Action.NoAction) × (r.on_update ≡ Action.NoAction))
        references.now }
{
    references.iter().all(|reference| has_no_action(reference))
}

/// Whether no foreign key of the schema acts where a row is deleted or its key changes.
pub fn is_inert(schema: &Schema) -> bool
    ensures { IsTrue result ↔ IsInert schema.now }
{
    schema
        .tables
        .as_slice()
        .iter()
        .all(|table| have_no_actions(table.references.as_slice()))
}

/// Whether the schema lets each write touch its own table alone, and the table of the counts.
pub fn is_quiet(schema: &Schema) -> bool
    ensures { IsTrue result ↔ IsQuiet schema.now }
{
    find_table(schema, &COUNTERS).is_some() && is_inert(schema)
}
