//! The content that a row of a user table holds.
ghost use Rattle.std.specs.Prelude.{◌≡◌};
ghost use Rattle.sheet_types.specs.declared.command.Content.TheVariants.{Tile, Media, Row};

use package_tables::rows::{AttributeRow, MediaRow, TileRow};
use sheet_types::command::Content;

/// What the row of a tile holds.
pub(crate) fn of_tile(tile: TileRow) -> Content
    ensures { result ≡ Tile tile.zoom_level tile.tile_column tile.tile_row tile.tile_data }
{
    Content::Tile {
        zoom: tile.zoom_level,
        column: tile.tile_column,
        row: tile.tile_row,
        bytes: tile.tile_data,
    }
}

/// What the row of a medium holds.
pub(crate) fn of_medium(medium: MediaRow) -> Content
    ensures { result ≡ Media medium.content_type medium.data }
{
    Content::Media {
        content_type: medium.content_type,
        bytes: medium.data,
    }
}

/// What an attributes row holds.
pub(crate) fn of_attributes(row: AttributeRow) -> Content
    ensures { result ≡ Row row.x row.y row.code row.label }
{
    Content::Row {
        x: row.x,
        y: row.y,
        code: row.code,
        label: row.label,
    }
}
