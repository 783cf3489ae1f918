//! The SQL by which stock `sqlite3` lists what a GeoPackage holds, in its parts.
ghost use Rattle.std.specs.Prelude.{◌≡◌, IfOk, string_bytes};
ghost use Rattle.field_sql.specs.Holds.{body, levels, links, own_tables, points, records, start};

use std::alloc::{AllocError, Global};

/// How the shell prints, and the beginning of one transaction.
pub(crate) fn start() -> &'static str
    ensures { result.now ≡ start }
{
    ".mode list
.headers off
.bail on
BEGIN;
"
}

/// The tables of an export under the names that are read.
pub(crate) fn own_tables() -> &'static str
    ensures { result.now ≡ own_tables }
{
    "CREATE TEMP VIEW sheet_matrix_set AS
SELECT * FROM main.gpkg_tile_matrix_set WHERE table_name = 'sheet_tiles';
CREATE TEMP VIEW sheet_matrix AS
SELECT * FROM main.gpkg_tile_matrix WHERE table_name = 'sheet_tiles';
CREATE TEMP VIEW sheet_points_system AS
SELECT srs_id FROM main.gpkg_geometry_columns WHERE table_name = 'sheet_rows' AND column_name = 'geom';
"
}

/// The points: whole thousandths of the two doubles, and what a row cannot be.
fn points() -> &'static str
    ensures { result.now ≡ points }
{
    "CREATE TEMP VIEW read_places(place) AS
VALUES (0),(1),(2),(3),(4),(5),(6),(7),(8),(9),(10),(11),(12),(13),(14),(15);
CREATE TEMP VIEW read_heads AS
SELECT id, code, label, uuid, geom,
  CASE WHEN typeof(geom) = 'blob' AND substr(geom, 1, 3) = x'475000' THEN
    16 * instr('123456789ABCDEF', substr(hex(substr(geom, 4, 1)), 1, 1))
    + instr('123456789ABCDEF', substr(hex(substr(geom, 4, 1)), 2, 1)) END AS flags
FROM sheet_rows;
CREATE TEMP TABLE read_bodies AS
SELECT id, code, label, uuid, hex(substr(geom, 5, 4)) AS system, flags & 1 AS little,
  CASE WHEN flags & 48 = 0 THEN hex(substr(geom, 9 + CASE (flags >> 1) & 7
    WHEN 0 THEN 0 WHEN 1 THEN 32 WHEN 2 THEN 48 WHEN 3 THEN 48 WHEN 4 THEN 64 END, 22)) END AS body
FROM read_heads;
CREATE TEMP TABLE read_bits AS
SELECT id, code, label, uuid, CASE little
    WHEN 1 THEN substr(system, 7, 2) || substr(system, 5, 2) || substr(system, 3, 2)
      || substr(system, 1, 2)
    ELSE system END AS system,
  CASE WHEN length(body) = 42 AND substr(body, 1, 10) IN ('0101000000', '0000000001') THEN
    (SELECT sum(instr('123456789ABCDEF', substr(body, 11 + place, 1)) << CASE substr(body, 2, 1)
      WHEN '1' THEN 4 * (place + 1 - place % 2 * 2) ELSE 60 - 4 * place END) FROM read_places) END AS x,
  CASE WHEN length(body) = 42 AND substr(body, 1, 10) IN ('0101000000', '0000000001') THEN
    (SELECT sum(instr('123456789ABCDEF', substr(body, 27 + place, 1)) << CASE substr(body, 2, 1)
      WHEN '1' THEN 4 * (place + 1 - place % 2 * 2) ELSE 60 - 4 * place END) FROM read_places) END AS y
FROM read_bodies;
CREATE TEMP TABLE read_points AS
SELECT id, label, uuid, system, CASE typeof(code)
    WHEN 'integer' THEN code
    WHEN 'real' THEN CASE WHEN code = CAST(code AS INTEGER) THEN CAST(code AS INTEGER) END
    WHEN 'text' THEN CASE WHEN length(code) BETWEEN 1 AND 9 AND instr(code, char(0)) = 0
      AND code NOT GLOB '*[^0-9]*' THEN CAST(code AS INTEGER) END END AS code,
  CASE WHEN ((x >> 52) & 2047) < 1075 THEN
    (((((x & 4503599627370495) | ((((x >> 52) & 2047) > 0) << 52)) * 1000
    >> (1074 - ((x >> 52) & 2047))) + 1) >> 1)
    * CASE WHEN x < 0 THEN -1 ELSE 1 END END AS x,
  CASE WHEN ((y >> 52) & 2047) < 1075 THEN
    (((((y & 4503599627370495) | ((((y >> 52) & 2047) > 0) << 52)) * 1000
    >> (1074 - ((y >> 52) & 2047))) + 1) >> 1)
    * CASE WHEN y < 0 THEN -1 ELSE 1 END END AS y
FROM read_bits;
CREATE TEMP VIEW read_system AS
SELECT c.srs_id, printf('%08X', c.srs_id & 4294967295) AS spelled,
  CASE upper(s.organization) WHEN 'EPSG' THEN s.organization_coordsys_id
    WHEN 'NONE' THEN CASE WHEN c.srs_id IN (-1, 0) THEN c.srs_id END END AS system
FROM sheet_points_system c LEFT JOIN gpkg_spatial_ref_sys s ON s.srs_id = c.srs_id;
CREATE TEMP TABLE read_rows AS
SELECT id, x, y, code, label, uuid, CASE
    WHEN x IS NULL OR y IS NULL THEN 'geometry'
    WHEN system <> (SELECT spelled FROM read_system) THEN 'system'
    WHEN code IS NULL THEN 'code'
    WHEN typeof(label) = 'blob' OR instr(label, char(0)) > 0 THEN 'label' END AS fault
FROM read_points;
"
}

/// The links that have both ends. A tile that was replaced is found by its place.
fn links() -> &'static str
    ensures { result.now ≡ links }
{
    "CREATE TEMP TABLE read_links AS
SELECT DISTINCT 4 AS kind, 'tiles_media' AS mapping, t.id AS base, o.id AS other FROM tiles_media m
JOIN sheet_tiles t ON t.id = coalesce((SELECT id FROM sheet_tiles WHERE id = m.base_id),
    (SELECT n.id FROM sheet_tile_identity i JOIN sheet_tiles n ON n.zoom_level = i.zoom_level
    AND n.tile_column = i.tile_column AND n.tile_row = i.tile_row WHERE i.id = m.base_id))
JOIN sheet_media o ON o.id = m.related_id
UNION ALL
SELECT DISTINCT 5, 'rows_media', b.id, o.id FROM rows_media m
JOIN sheet_rows b ON b.id = m.base_id JOIN sheet_media o ON o.id = m.related_id
UNION ALL
SELECT DISTINCT 6, 'rows_tiles', b.id, t.id FROM rows_tiles m JOIN sheet_rows b ON b.id = m.base_id
JOIN sheet_tiles t ON t.id = coalesce((SELECT id FROM sheet_tiles WHERE id = m.related_id),
    (SELECT n.id FROM sheet_tile_identity i JOIN sheet_tiles n ON n.zoom_level = i.zoom_level
    AND n.tile_column = i.tile_column AND n.tile_row = i.tile_row WHERE i.id = m.related_id));
"
}

/// The frame of the pyramid, or why there is none.
fn levels() -> &'static str
    ensures { result.now ≡ levels }
{
    "CREATE TEMP VIEW read_levels AS
SELECT zoom_level AS zoom, matrix_width, matrix_height, tile_width, tile_height,
  CAST(round(pixel_x_size * 1000) AS INTEGER) AS pixel_x,
  CAST(round(pixel_y_size * 1000) AS INTEGER) AS pixel_y,
  coalesce(abs(pixel_x_size * 1000 - round(pixel_x_size * 1000)) < 0.000001
    AND abs(pixel_y_size * 1000 - round(pixel_y_size * 1000)) < 0.000001, 0) AS whole
FROM sheet_matrix;
CREATE TEMP VIEW read_ends AS
SELECT min(zoom) AS first_zoom, max(zoom) AS last_zoom, count(*) AS levels,
  min(tile_width) AS tile_width, max(tile_width) AS widest,
  min(tile_height) AS tile_height, max(tile_height) AS highest, min(whole) AS whole,
  (SELECT pixel_x FROM read_levels ORDER BY zoom DESC LIMIT 1) AS pixel_x,
  (SELECT pixel_y FROM read_levels ORDER BY zoom DESC LIMIT 1) AS pixel_y
FROM read_levels;
CREATE TEMP VIEW read_matrix AS
SELECT e.*,
  (SELECT max(((l.matrix_width - 1) >> (l.zoom - e.first_zoom)) + 1)
    FROM read_levels l) AS matrix_width,
  (SELECT max(((l.matrix_height - 1) >> (l.zoom - e.first_zoom)) + 1)
    FROM read_levels l) AS matrix_height,
  (SELECT min(l.pixel_x = e.pixel_x << (e.last_zoom - l.zoom)
    AND l.pixel_y = e.pixel_y << (e.last_zoom - l.zoom)) FROM read_levels l) AS doubles
FROM read_ends e;
CREATE TEMP VIEW read_set AS
SELECT s.min_x, s.max_y, CAST(round(s.min_x * 1000) AS INTEGER) AS west,
  CAST(round(s.max_y * 1000) AS INTEGER) AS north,
  CASE upper(r.organization) WHEN 'EPSG' THEN r.organization_coordsys_id
    WHEN 'NONE' THEN CASE WHEN s.srs_id IN (-1, 0) THEN s.srs_id END END AS system, m.*
FROM sheet_matrix_set s LEFT JOIN gpkg_spatial_ref_sys r ON r.srs_id = s.srs_id, read_matrix m;
CREATE TEMP VIEW read_frame AS
SELECT CASE WHEN count(*) <> 1 THEN 'pyramid' WHEN system IS NULL THEN 'system'
    WHEN coalesce(abs(min_x * 1000 - round(min_x * 1000)) > 0.001
      OR abs(max_y * 1000 - round(max_y * 1000)) > 0.001, 1) THEN 'corner'
    WHEN levels = 0 OR last_zoom - first_zoom + 1 <> levels OR first_zoom < 0
      OR last_zoom > 20 THEN 'zooms'
    WHEN tile_width <> widest OR tile_height <> highest THEN 'tiles'
    WHEN whole = 0 OR pixel_x < 1 OR pixel_y < 1 THEN 'pixels'
    WHEN doubles = 0 THEN 'doubling' END AS fault,
  printf('%d,%d,%d,%d,%d,%d,%d,%d,%d,%d,%d', system, west,
    north - matrix_height * tile_height * (pixel_y << (levels - 1)),
    west + matrix_width * tile_width * (pixel_x << (levels - 1)), north,
    tile_width, tile_height, first_zoom, levels, matrix_width, matrix_height) AS frame
FROM read_set;
"
}

/// What is printed, a record a line, with a count for an end.
fn records() -> &'static str
    ensures { result.now ≡ records }
{
    "SELECT 'kind,number,other,identity,zoom,column,row,x,y,code,text,data';
SELECT 'package,' || CASE typeof(ticket) WHEN 'integer' THEN ticket ELSE '' END || ',,'
  || CASE WHEN typeof(package) = 'text' AND instr(package, char(0)) = 0
    AND package LIKE '________-____-____-____-____________' AND length(replace(package, '-', '')) = 32
    AND package NOT GLOB '*[^0-9a-fA-F-]*' THEN package ELSE '' END
  || ',,,,,,,,' FROM sheet_export;
SELECT 'system,' || coalesce(system, -2) || ',,,,,,,,,,' FROM read_system;
SELECT CASE WHEN fault IS NULL THEN 'frame,,,,,,,,,,\"' || frame || '\",'
  ELSE 'bad,,,,,,,,,,frame ' || fault || ',' END
FROM read_frame WHERE EXISTS (SELECT 1 FROM sheet_matrix_set);
SELECT CASE WHEN typeof(zoom_level) = 'integer' AND typeof(tile_column) = 'integer'
    AND typeof(tile_row) = 'integer' AND typeof(tile_data) = 'blob'
  THEN 'tile,' || id || ',,,' || zoom_level || ',' || tile_column || ',' || tile_row
    || ',,,,,' || hex(tile_data)
  ELSE 'bad,' || id || ',,,,,,,,,tile data,' END
FROM sheet_tiles ORDER BY id;
SELECT CASE WHEN typeof(data) = 'blob' AND typeof(content_type) = 'text'
    AND instr(content_type, char(0)) = 0
  THEN 'media,' || id || ',,' ||
  CASE WHEN typeof(uuid) = 'text' AND instr(uuid, char(0)) = 0
    AND uuid LIKE '________-____-____-____-____________' AND length(replace(uuid, '-', '')) = 32
    AND uuid NOT GLOB '*[^0-9a-fA-F-]*' THEN uuid ELSE '' END
  || ',,,,,,,\"' || replace(content_type, '\"', '\"\"') || '\",' || hex(data)
  ELSE 'bad,' || id || ',,,,,,,,,media data,' END
FROM sheet_media ORDER BY id;
SELECT CASE WHEN fault IS NULL
  THEN 'row,' || id || ',,' ||
  CASE WHEN typeof(uuid) = 'text' AND instr(uuid, char(0)) = 0
    AND uuid LIKE '________-____-____-____-____________' AND length(replace(uuid, '-', '')) = 32
    AND uuid NOT GLOB '*[^0-9a-fA-F-]*' THEN uuid ELSE '' END
  || ',,,,' || x || ',' || y || ',' || code || ',\"'
  || replace(coalesce(label, ''), '\"', '\"\"') || '\",'
  ELSE 'bad,' || id || ',,,,,,,,,row ' || fault || ',' END
FROM read_rows ORDER BY id;
SELECT mapping || ',' || base || ',' || other || ',,,,,,,,,' FROM read_links ORDER BY kind, base, other;
SELECT 'end,' || ((SELECT count(*) FROM sheet_export) + (SELECT count(*) FROM read_system)
  + EXISTS (SELECT 1 FROM sheet_matrix_set) + (SELECT count(*) FROM sheet_tiles)
  + (SELECT count(*) FROM sheet_media) + (SELECT count(*) FROM sheet_rows)
  + (SELECT count(*) FROM read_links)) || ',,,,,,,,,,';
COMMIT;
"
}

/// What stands behind the tables that are read.
pub(crate) fn body(alloc: Global) -> Result<String, AllocError>
    ensures { IfOk result (λ text. string_bytes text ≡ body) }
{
    let points = points();
    let links = links();
    let levels = levels();
    let records = records();
    format!(in alloc; "{points}{links}{levels}{records}")
}
