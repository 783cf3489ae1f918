//! The texts of which a map is made (SVG 1.1).
ghost use Rattle.std.specs.Prelude.{◌≡◌, ◌^◌, ◌*◌, ◌<◌, ◌≤◌, ◌-◌, ◌++◌, IfOk, OnOk};
ghost use Rattle.std.specs.Prelude.{string_bytes};
ghost use Rattle.view_map.specs.Layout.{IsLayout, column_left, line_at, map_height, map_width, row_top, sheets_on};
ghost use Rattle.view_map.specs.Pieces.{box_text, column_line, first_lines, grid_text, has_grid, head_text};
ghost use Rattle.view_map.specs.Pieces.{legend_line, mark_text, outline_text, owner_text, page_text, page_width};
ghost use Rattle.view_map.specs.Pieces.{place_text, row_line, shape_box, shape_text, title_text, told_text};

use crate::colours::colour;
use crate::holders::Holder;
use crate::layout::{Layout, is_on};
use crate::sheets::Sheet;
use std::alloc::{AllocError, Global};
use uuid::Uuid;

/// How far so many of these places reach, which are at most as many as there are.
fn extent(places: u64, most: u64, size: u64) -> u64
    requires few { places ≤ most }
    requires fits { most * size ≤ 48000000000000 }
    ensures extent { result ≡ places * size }
    ensures bound { result ≤ 48000000000000 }
{
    places * size
}

/// The width of the map.
fn map_width(layout: &Layout) -> u64
    requires { IsLayout layout.now }
    ensures width { result ≡ map_width layout.now }
    ensures bound { result ≤ 48000000000000 }
{
    extent(layout.columns, layout.columns, layout.width)
}

/// The height of the map.
fn map_height(layout: &Layout) -> u64
    requires { IsLayout layout.now }
    ensures height { result ≡ map_height layout.now }
    ensures bound { result ≤ 48000000000000 }
{
    extent(layout.rows, layout.rows, layout.height)
}

/// The left edge of a column.
fn column_left(layout: &Layout, column: u64) -> u64
    requires fits { IsLayout layout.now }
    requires column { column < layout.now.columns }
    ensures left { result ≡ column_left layout.now column }
    ensures bound { result ≤ 48000000000020 }
{
    20 + extent(column, layout.columns, layout.width)
}

/// The upper edge of a row.
fn row_top(layout: &Layout, row: u64) -> u64
    requires fits { IsLayout layout.now }
    requires row { row < layout.now.rows }
    ensures top { result ≡ row_top layout.now row }
    ensures bound { result ≤ 48000000000048 }
{
    48 + extent(row, layout.rows, layout.height)
}

/// Where the line of a package stands below the map, by its place in the list.
fn line_at(layout: &Layout, index: u64) -> u64
    requires fits { IsLayout layout.now }
    requires few { index ≤ 2 ^ 59 }
    ensures line { result ≡ line_at layout.now index }
    ensures bound { result ≤ 2 ^ 64 - 2 ^ 60 }
{
    map_height(layout) + 76 + 18 * index
}

/// The width of the page: that of the map with its margins, and no less than the legend needs.
fn page_width(layout: &Layout) -> u64
    requires { IsLayout layout.now }
    ensures { result ≡ page_width layout.now }
{
    let width = map_width(layout) + 40;
    width.max(480)
}

/// The beginning of a page of this size, with a white ground.
#[tactic(auto, unfolding(crate::specs::Pieces::page_text))]
fn page_text(alloc: Global, width: u64, height: u64) -> Result<String, AllocError>
    ensures { IfOk result (λ text. string_bytes text ≡ page_text width height) }
{
    format!(in alloc;
        "<svg xmlns=\"http://www.w3.org/2000/svg\" viewBox=\"0 0 {width} {height}\" width=\"{width}\" height=\"{height}\" font-family=\"Helvetica, Arial, sans-serif\" font-size=\"11\">\n<rect width=\"100%\" height=\"100%\" fill=\"#ffffff\"/>\n"
    )
}

/// The title.
#[tactic(auto, unfolding(crate::specs::Pieces::title_text))]
fn title_text(alloc: Global, zoom: u64, columns: u64, rows: u64) -> Result<String, AllocError>
    ensures { IfOk result (λ text. string_bytes text ≡ title_text zoom columns rows) }
{
    format!(in alloc;
        "<text x=\"20\" y=\"30\" font-size=\"16\">Who holds which sheets at zoom {zoom}, {columns} by {rows} places</text>\n"
    )
}

/// The beginning of a map with so many packages, and its title.
pub(crate) fn head_text(
    alloc: Global,
    layout: &Layout,
    zoom: u64,
    count: u64,
) -> Result<String, AllocError>
    requires fits { IsLayout layout.now }
    requires few { count ≤ 2 ^ 59 }
    ensures { IfOk result (λ text. string_bytes text ≡ head_text layout.now zoom count) }
{
    let mut text = page_text(alloc, page_width(layout), line_at(layout, count))?;
    let title = title_text(alloc, zoom, layout.columns, layout.rows)?;
    text.push_str(title.as_str())?;
    Ok(text)
}

/// The outline of the frame.
pub(crate) fn outline_text(alloc: Global, layout: &Layout) -> Result<String, AllocError>
    requires { IsLayout layout.now }
    ensures { IfOk result (λ text. string_bytes text ≡ outline_text layout.now) }
{
    let width = map_width(layout);
    let height = map_height(layout);
    format!(in alloc;
        "<rect x=\"20\" y=\"48\" width=\"{width}\" height=\"{height}\" fill=\"none\" stroke=\"#6b6250\"/>\n"
    )
}

/// The line at the left edge of a column.
fn column_line(alloc: Global, layout: &Layout, column: u64) -> Result<String, AllocError>
    requires fits { IsLayout layout.now }
    requires column { column < layout.now.columns }
    ensures { IfOk result (λ text. string_bytes text ≡ column_line layout.now column) }
{
    let left = column_left(layout, column);
    let height = map_height(layout);
    format!(in alloc; "M{left} 48v{height}")
}

/// The line at the upper edge of a row.
fn row_line(alloc: Global, layout: &Layout, row: u64) -> Result<String, AllocError>
    requires fits { IsLayout layout.now }
    requires row { row < layout.now.rows }
    ensures { IfOk result (λ text. string_bytes text ≡ row_line layout.now row) }
{
    let top = row_top(layout, row);
    let width = map_width(layout);
    format!(in alloc; "M20 {top}h{width}")
}

/// Adds the lines of all columns.
fn add_column_lines(alloc: Global, path: &mut String, layout: &Layout) -> Result<(), AllocError>
    requires { IsLayout layout.now }
    ensures { OnOk result (string_bytes path.new ≡ string_bytes path.old
        ++ first_lines (column_line layout.now) layout.now.columns) }
{
    for column in 0..layout.columns {
        let line = column_line(alloc, layout, column)?;
        path.push_str(line.as_str())?;
    }
    Ok(())
}

/// Adds the lines of all rows.
fn add_row_lines(alloc: Global, path: &mut String, layout: &Layout) -> Result<(), AllocError>
    requires { IsLayout layout.now }
    ensures { OnOk result (string_bytes path.new ≡ string_bytes path.old
        ++ first_lines (row_line layout.now) layout.now.rows) }
{
    for row in 0..layout.rows {
        let line = row_line(alloc, layout, row)?;
        path.push_str(line.as_str())?;
    }
    Ok(())
}

/// Whether there are few enough places for lines between them.
fn has_grid(layout: &Layout) -> bool
    ensures { result ≡ has_grid layout.now }
{
    (layout.columns <= 256) & (layout.rows <= 256)
}

/// The lines between places, where there are few enough.
pub(crate) fn grid_text(alloc: Global, layout: &Layout) -> Result<String, AllocError>
    requires { IsLayout layout.now }
    ensures { IfOk result (λ text. string_bytes text ≡ grid_text layout.now) }
{
    let mut text = String::new(alloc);
    if has_grid(layout) {
        text.push_str("<path d=\"")?;
        add_column_lines(alloc, &mut text, layout)?;
        add_row_lines(alloc, &mut text, layout)?;
        text.push_str("\" fill=\"none\" stroke=\"#d8d4c8\" stroke-width=\"0.5\"/>\n")?;
    }
    Ok(text)
}

/// Where a rectangle stands and how large it is.
#[tactic(auto, unfolding(crate::specs::Pieces::box_text))]
fn box_text(alloc: Global, x: u64, y: u64, width: u64, height: u64) -> Result<String, AllocError>
    ensures { IfOk result (λ text. string_bytes text ≡ box_text x y width height) }
{
    format!(in alloc; "<rect x=\"{x}\" y=\"{y}\" width=\"{width}\" height=\"{height}\"")
}

/// Its colour, and the package as its title.
#[tactic(auto, unfolding(crate::specs::Pieces::owner_text))]
fn owner_text(alloc: Global, fill: &str, uuid: Uuid) -> Result<String, AllocError>
    ensures { IfOk result (λ text. string_bytes text ≡ owner_text fill.now uuid) }
{
    format!(in alloc; " fill=\"{fill}\"><title>{uuid} ")
}

/// Behind the package the place.
#[tactic(auto, unfolding(crate::specs::Pieces::place_text))]
fn place_text(alloc: Global, zoom: u64, column: u64, row: u64) -> Result<String, AllocError>
    ensures { IfOk result (λ text. string_bytes text ≡ place_text zoom column row) }
{
    format!(in alloc; "{zoom}/{column}/{row}</title></rect>\n")
}

/// Where the rectangle of a sheet over so many others stands, and how large it is.
fn shape_box(
    alloc: Global,
    layout: &Layout,
    sheet: &Sheet,
    layer: u64,
) -> Result<String, AllocError>
    requires fits { IsLayout layout.now }
    requires column { sheet.now.place.column < layout.now.columns }
    requires row { sheet.now.place.row < layout.now.rows }
    requires layer { layer ≤ 4 }
    ensures { IfOk result (λ text. string_bytes text ≡ shape_box layout.now
        (record { sheet = sheet.now; layer = layer })) }
{
    let inset = 1 + 2 * layer;
    let x = column_left(layout, sheet.place.column) + inset;
    let y = row_top(layout, sheet.place.row) + inset;
    box_text(
        alloc,
        x,
        y,
        layout.width - 2 * inset,
        layout.height - 2 * inset,
    )
}

/// The rectangle of a sheet over so many others, with the package and the place as its title.
pub(crate) fn shape_text(
    alloc: Global,
    layout: &Layout,
    zoom: u64,
    sheet: &Sheet,
    layer: u64,
) -> Result<String, AllocError>
    requires fits { IsLayout layout.now }
    requires column { sheet.now.place.column < layout.now.columns }
    requires row { sheet.now.place.row < layout.now.rows }
    requires layer { layer ≤ 4 }
    ensures { IfOk result (λ text. string_bytes text ≡ shape_text layout.now zoom
        (record { sheet = sheet.now; layer = layer })) }
{
    let mut text = shape_box(alloc, layout, sheet, layer)?;
    let owner = owner_text(alloc, colour(sheet.index), sheet.uuid)?;
    let place = place_text(alloc, zoom, sheet.place.column, sheet.place.row)?;
    text.push_str(owner.as_str())?;
    text.push_str(place.as_str())?;
    Ok(text)
}

/// How many sheets of the map a package has.
fn sheets_on(layout: &Layout, holder: &Holder) -> usize
    ensures { result ≡ sheets_on layout.now holder.now }
{
    holder
        .places
        .iter()
        .filter(|place| is_on(layout, place))
        .count()
}

/// The colour of a package below the map.
#[tactic(auto, unfolding(crate::specs::Pieces::mark_text))]
fn mark_text(alloc: Global, top: u64, fill: &str) -> Result<String, AllocError>
    ensures { IfOk result (λ text. string_bytes text ≡ mark_text top fill.now) }
{
    format!(in alloc; "<rect x=\"20\" y=\"{top}\" width=\"12\" height=\"12\" fill=\"{fill}\"/>\n")
}

/// Its UUID, how many sheets of the map it has, and its depth.
#[tactic(auto, unfolding(crate::specs::Pieces::told_text))]
fn told_text(
    alloc: Global,
    base: u64,
    uuid: Uuid,
    sheets: usize,
    depth: u64,
) -> Result<String, AllocError>
    ensures { IfOk result (λ text. string_bytes text ≡ told_text base uuid sheets depth) }
{
    format!(in alloc;
        "<text x=\"39\" y=\"{base}\"><tspan font-family=\"monospace\">{uuid}</tspan> sheets: {sheets}, depth: {depth}</text>\n"
    )
}

/// The line of a package by its place in the list: its colour, its UUID, how many sheets of the map
/// it has, and its depth.
pub(crate) fn legend_line(
    alloc: Global,
    layout: &Layout,
    index: usize,
    holder: &Holder,
) -> Result<String, AllocError>
    requires fits { IsLayout layout.now }
    requires few { index ≤ 2 ^ 59 }
    ensures { IfOk result (λ text. string_bytes text ≡ legend_line layout.now index holder.now) }
{
    let top = line_at(layout, index as u64);
    let sheets = sheets_on(layout, holder);
    let mut text = mark_text(alloc, top, colour(index))?;
    let told = told_text(alloc, top + 10, holder.uuid, sheets, holder.depth)?;
    text.push_str(told.as_str())?;
    Ok(text)
}
