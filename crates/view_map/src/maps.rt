//! A whole map.
ghost use Rattle.std.specs.Prelude.{◌≡◌, ◌^◌, ◌<◌, ◌≤◌, ◌++◌, [], IfOk, IsTrue, OnOk, length};
ghost use Rattle.std.specs.Prelude.{string_bytes};
ghost use Rattle.std.specs.List.{AllPass};
ghost use Rattle.sheet_types.specs.Matrix.{has_level, is_good_frame};
ghost use Rattle.view_map.specs.Layout.{IsLayout, is_on};
ghost use Rattle.view_map.specs.Maps.{map_text, picture_text};
ghost use Rattle.view_map.specs.Pieces.{legend_from, shapes_text};
ghost use Rattle.view_map.specs.Sheets.{layered};

use crate::holders::Holder;
use crate::layers::{add_layer, number};
use crate::layout::{Layout, layout_of};
use crate::pieces::{grid_text, head_text, legend_line, outline_text, shape_text};
use crate::sheets::{Sheet, all_sheets};
use sheet_types::error::OutOfMemory;
use sheet_types::frame::Frame;
use std::alloc::Global;
use std::collections::HashMap;

/// Adds the rectangles of sheets in turn, each over those of its place that came before.
fn add_shapes(
    alloc: Global,
    text: &mut String,
    layout: &Layout,
    zoom: u64,
    sheets: &[Sheet],
) -> Result<(), OutOfMemory>
    requires fits { IsLayout layout.now }
    requires places { AllPass (λ s. is_on layout.now s.place) sheets.now }
    ensures { OnOk result (string_bytes text.new ≡ string_bytes text.old
        ++ shapes_text layout.now zoom (layered layout.now [] sheets.now)) }
{
    let mut layers = HashMap::new(alloc);
    for sheet in sheets {
        let layer = add_layer(&mut layers, number(layout, &sheet.place))?;
        let shape = shape_text(alloc, layout, zoom, sheet, layer)?;
        text.push_str(shape.as_str())?;
    }
    Ok(())
}

/// Adds the picture of the frame: the lines between places, the sheets, and the outline.
fn add_picture(
    alloc: Global,
    text: &mut String,
    layout: &Layout,
    zoom: u64,
    holders: &[Holder],
) -> Result<(), OutOfMemory>
    requires { IsLayout layout.now }
    ensures { OnOk result (string_bytes text.new ≡ string_bytes text.old
        ++ picture_text layout.now zoom holders.now) }
{
    let sheets = all_sheets(alloc, layout, holders)?;
    let grid = grid_text(alloc, layout)?;
    let outline = outline_text(alloc, layout)?;
    text.push_str(grid.as_str())?;
    text.push_str("<g stroke=\"#4a4a4a\" stroke-width=\"0.5\">\n")?;
    add_shapes(alloc, text, layout, zoom, sheets.as_slice())?;
    text.push_str("</g>\n")?;
    text.push_str(outline.as_str())?;
    Ok(())
}

/// Adds the legend: a line for each package.
fn add_legend(
    alloc: Global,
    text: &mut String,
    layout: &Layout,
    holders: &[Holder],
) -> Result<(), OutOfMemory>
    requires fits { IsLayout layout.now }
    requires few { length holders.now ≤ 2 ^ 59 }
    ensures { OnOk result (string_bytes text.new ≡ string_bytes text.old ++ legend_from layout.now 0 holders.now) }
{
    for (index, holder) in holders.iter().enumerate() {
        let line = legend_line(alloc, layout, index, holder)?;
        text.push_str(line.as_str())?;
    }
    Ok(())
}

/// The map of a zoom of a frame as an SVG picture: who holds which of its sheets, of these packages
/// in the order of their UUIDs, which gives each its colour. A place that the zoom does not have is
/// left out. The text has about 150 bytes for each sheet and 250 for each package.
///
/// # Errors
///
/// Want of memory.
pub fn map_text(
    alloc: Global,
    frame: &Frame,
    zoom: i64,
    holders: &[Holder],
) -> Result<String, OutOfMemory>
    requires good { IsTrue (is_good_frame frame.now) }
    requires level { IsTrue (has_level frame.now zoom) }
    ensures { IfOk result (λ text. string_bytes text ≡ map_text frame.now zoom holders.now) }
{
    let layout = layout_of(frame, zoom);
    let number = zoom.unsigned_abs();
    let mut text = head_text(alloc, &layout, number, holders.len() as u64)?;
    add_picture(alloc, &mut text, &layout, number, holders)?;
    add_legend(alloc, &mut text, &layout, holders)?;
    text.push_str("</svg>\n")?;
    Ok(text)
}
