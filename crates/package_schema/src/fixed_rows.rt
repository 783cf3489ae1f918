//! Whether rows are those that each package has of reference systems, contents and relations, in any order.
ghost use Rattle.std.specs.Prelude.{◌≡◌, ◌↔◌, IsTrue, IfOk, IsPermutation, [], true};
ghost use Rattle.std.specs.List.{list_any};
ghost use Rattle.package_tables.specs.Fixed.{is_standard, system, systems_of, content, contents_of, undated, relation};
ghost use Rattle.package_tables.specs.Fixed.{mapping_relations};
ghost use Rattle.package_schema.specs.Frames.{same_system, same_content, same_relation, relations_at};
ghost use Rattle.package_v1.specs.FirstVersion.{first_relations};

use crate::versions::Version;
use package_tables::fault::Fault;
use package_tables::rows::{
    ContentsRow, RelationRow, SpatialRefSysRow, TileMatrixRow, TileMatrixSetRow,
};
use sheet_types::frame::Frame;
use std::alloc::Global;

/// The rows of the tables that are the same in every package but for the frame.
#[derive(Drop)]
pub(crate) struct FixedRows {
    pub(crate) systems: Vec<SpatialRefSysRow>,
    pub(crate) listed: Vec<ContentsRow>,
    pub(crate) sets: Vec<TileMatrixSetRow>,
    /// By their zooms.
    pub(crate) levels: Vec<TileMatrixRow>,
    pub(crate) related: Vec<RelationRow>,
}

fn is_system(
    row: &SpatialRefSysRow,
    name: &str,
    number: i64,
    organization: &str,
    definition: &str,
) -> bool
    ensures { result ≡ same_system row.now (system name.now number organization.now definition.now) }
{
    row.srs_name.is_text(name)
        & (row.srs_id == number)
        & row.organization.is_text(organization)
        & (row.organization_coordsys_id == number)
        & row.definition.is_text(definition)
        & row.description.is_text("")
}

fn has_system(
    rows: &[SpatialRefSysRow],
    name: &str,
    number: i64,
    organization: &str,
    definition: &str,
) -> bool
    ensures { result ≡ list_any (λ r. same_system r (system name.now number organization.now definition.now))
        rows.now }
{
    rows.iter().any(|row| is_system(row, name, number, organization, definition))
}

fn is_standard(srs_id: i64) -> bool
    ensures { result ≡ is_standard srs_id }
{
    srs_id == -1 || srs_id == 0 || srs_id == 4326
}

/// Whether these are the reference systems of a package whose frame has this one (OGC GeoPackage 1.3, 1.1.2).
pub(crate) fn are_systems(
    rows: &[SpatialRefSysRow],
    srs_id: i64,
    alloc: Global,
) -> Result<bool, Fault>
    ensures { IfOk result (λ are. IsTrue are ↔ IsPermutation rows.now (systems_of srs_id)) }
{
    let plane = has_system(rows, "undefined cartesian", -1, "NONE", "undefined");
    let globe = has_system(rows, "undefined geographic", 0, "NONE", "undefined");
    let world = has_system(rows, "WGS 84", 4326, "EPSG", "profile");
    let standard = plane & globe & world;
    if is_standard(srs_id) {
        return Ok(standard & (rows.len() == 3));
    }
    let name = format!(in alloc; "srs {srs_id}")?;
    let own = has_system(rows, name.as_str(), srs_id, "EPSG", "profile");
    Ok(standard & own & (rows.len() == 4))
}

fn is_content(row: &ContentsRow, name: &str, kind: &str, frame: &Frame) -> bool
    ensures { result ≡ same_content row.now (content name.now kind.now frame.now []) }
{
    row.table_name.is_text(name)
        & row.data_type.is_text(kind)
        & row.identifier.is_text(name)
        & row.description.is_text("")
        & (row.min_x == frame.min_x)
        & (row.min_y == frame.min_y)
        & (row.max_x == frame.max_x)
        & (row.max_y == frame.max_y)
        & (row.srs_id == frame.srs_id)
}

fn has_content(rows: &[ContentsRow], name: &str, kind: &str, frame: &Frame) -> bool
    ensures { result ≡ list_any (λ r. same_content r (content name.now kind.now frame.now [])) rows.now }
{
    rows.iter().any(|row| is_content(row, name, kind, frame))
}

/// Whether these are the contents of a frame, whatever the moments of the last change (OGC GeoPackage 1.3, 1.1.3).
pub(crate) fn are_contents(rows: &[ContentsRow], frame: &Frame) -> bool
    ensures { IsTrue result ↔ IsPermutation (undated rows.now) (contents_of frame.now []) }
{
    let media = has_content(rows, "sheet_media", "attributes", frame);
    let attributes = has_content(rows, "sheet_rows", "attributes", frame);
    let tiles = has_content(rows, "sheet_tiles", "tiles", frame);
    media & attributes & tiles & (rows.len() == 3)
}

fn is_relation(
    row: &RelationRow,
    number: i64,
    base: &str,
    related: &str,
    name: &str,
    mapping: &str,
) -> bool
    ensures { result ≡ same_relation row.now (relation number base.now related.now name.now mapping.now) }
{
    (row.id == number)
        & row.base_table_name.is_text(base)
        & row.base_primary_column.is_text("id")
        & row.related_table_name.is_text(related)
        & row.related_primary_column.is_text("id")
        & row.relation_name.is_text(name)
        & row.mapping_table_name.is_text(mapping)
}

fn has_relation(
    rows: &[RelationRow],
    number: i64,
    base: &str,
    related: &str,
    name: &str,
    mapping: &str,
) -> bool
    ensures { result ≡ list_any (λ r. same_relation r (relation number base.now related.now name.now mapping.now))
        rows.now }
{
    rows.iter().any(|row| is_relation(row, number, base, related, name, mapping))
}

/// Whether these are the relations of the three mapping tables (OGC 18-000, relations).
fn are_relations(rows: &[RelationRow]) -> bool
    ensures { IsTrue result ↔ IsPermutation rows.now mapping_relations }
{
    let tile_media = has_relation(
        rows,
        1,
        "sheet_tiles",
        "sheet_media",
        "media",
        "tiles_media",
    );
    let row_media = has_relation(rows, 2, "sheet_rows", "sheet_media", "media", "rows_media");
    let row_tiles = has_relation(rows, 3, "sheet_rows", "sheet_tiles", "tiles", "rows_tiles");
    tile_media & row_media & row_tiles & (rows.len() == 3)
}

/// Whether these are the relations of the two mapping tables of the first version (OGC 18-000, relations).
fn are_first_relations(rows: &[RelationRow]) -> bool
    ensures { IsTrue result ↔ IsPermutation rows.now first_relations }
{
    let tile_media = has_relation(
        rows,
        1,
        "sheet_tiles",
        "sheet_media",
        "media",
        "tiles_media",
    );
    let row_media = has_relation(rows, 2, "sheet_rows", "sheet_media", "media", "rows_media");
    tile_media & row_media & (rows.len() == 2)
}

/// Whether these are the relations of a version.
pub(crate) fn are_relations_at(rows: &[RelationRow], version: Version) -> bool
    ensures { IsTrue result ↔ IsPermutation rows.now (relations_at version) }
{
    match version {
        Version::First => are_first_relations(rows),
        Version::Second => are_relations(rows),
    }
}
