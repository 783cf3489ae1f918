//! How QGIS draws and edits three tables of an export, as rows of `layer_styles`.
ghost use Rattle.std.specs.Prelude.{◌≡◌, IfOk, string_bytes};
ghost use Rattle.view_export.specs.Styles.{media_style_row, outlines_style_row, rows_style_row, styles};

use std::alloc::{AllocError, Global};

/// Marks: red dots with their labels, and a form whose codes are from 0 to 999999.
fn rows_style_row() -> &'static str
    ensures { result.now ≡ rows_style_row }
{
    "INSERT INTO layer_styles (f_table_catalog,f_table_schema,f_table_name,f_geometry_column,styleName,styleQML,useAsDefault) VALUES ('','','sheet_rows','geom','sheet_rows','<qgis version=\"3.22.0\"><renderer-v2 type=\"singleSymbol\"><symbols><symbol type=\"marker\" name=\"0\" alpha=\"1\"><layer class=\"SimpleMarker\" enabled=\"1\"><Option type=\"Map\"><Option name=\"color\" value=\"214,40,40,255\" type=\"QString\"/><Option name=\"outline_color\" value=\"255,255,255,255\" type=\"QString\"/><Option name=\"name\" value=\"circle\" type=\"QString\"/><Option name=\"size\" value=\"3\" type=\"QString\"/></Option></layer></symbol></symbols></renderer-v2><labeling type=\"simple\"><settings><text-style fieldName=\"label\" fontSize=\"9\"/><placement dist=\"1\"/></settings></labeling><fieldConfiguration><field name=\"id\"><editWidget type=\"Hidden\"><config><Option type=\"Map\"></Option></config></editWidget></field><field name=\"code\"><editWidget type=\"Range\"><config><Option type=\"Map\"><Option name=\"Min\" value=\"0\" type=\"int\"/><Option name=\"Max\" value=\"999999\" type=\"int\"/><Option name=\"AllowNull\" value=\"false\" type=\"bool\"/></Option></config></editWidget></field><field name=\"label\"><editWidget type=\"TextEdit\"><config><Option type=\"Map\"><Option name=\"IsMultiline\" value=\"false\" type=\"bool\"/></Option></config></editWidget></field><field name=\"uuid\"><editWidget type=\"Hidden\"><config><Option type=\"Map\"></Option></config></editWidget></field></fieldConfiguration><aliases><alias field=\"code\" name=\"Code\"/><alias field=\"label\" name=\"Label\"/></aliases><previewExpression>\"label\"</previewExpression></qgis>',1);\n"
}

/// Outlines of sheets: edges alone, and number and place for a name.
fn outlines_style_row() -> &'static str
    ensures { result.now ≡ outlines_style_row }
{
    "INSERT INTO layer_styles (f_table_catalog,f_table_schema,f_table_name,f_geometry_column,styleName,styleQML,useAsDefault) VALUES ('','','sheet_tile_identity','geom','sheet_tile_identity','<qgis version=\"3.22.0\"><renderer-v2 type=\"singleSymbol\"><symbols><symbol type=\"fill\" name=\"0\" alpha=\"1\"><layer class=\"SimpleFill\" enabled=\"1\"><Option type=\"Map\"><Option name=\"style\" value=\"no\" type=\"QString\"/><Option name=\"outline_color\" value=\"60,60,60,255\" type=\"QString\"/></Option></layer></symbol></symbols></renderer-v2><fieldConfiguration><field name=\"uuid\"><editWidget type=\"Hidden\"><config><Option type=\"Map\"></Option></config></editWidget></field></fieldConfiguration><aliases><alias field=\"id\" name=\"Sheet\"/></aliases><previewExpression>\"id\" || &apos;: &apos; || \"zoom_level\" || &apos;, &apos; || \"tile_column\" || &apos;, &apos; || \"tile_row\"</previewExpression></qgis>',1);\n"
}

/// Media: a file that is embedded, and one of two types.
fn media_style_row() -> &'static str
    ensures { result.now ≡ media_style_row }
{
    "INSERT INTO layer_styles (f_table_catalog,f_table_schema,f_table_name,f_geometry_column,styleName,styleQML,useAsDefault) VALUES ('','','sheet_media','','sheet_media','<qgis version=\"3.22.0\"><fieldConfiguration><field name=\"id\"><editWidget type=\"TextEdit\"><config><Option type=\"Map\"></Option></config></editWidget></field><field name=\"data\"><editWidget type=\"Binary\"><config><Option type=\"Map\"></Option></config></editWidget></field><field name=\"content_type\"><editWidget type=\"ValueMap\"><config><Option type=\"Map\"><Option name=\"map\" type=\"List\"><Option type=\"Map\"><Option name=\"photograph (JPEG)\" value=\"image/jpeg\" type=\"QString\"/></Option><Option type=\"Map\"><Option name=\"picture (PNG)\" value=\"image/png\" type=\"QString\"/></Option></Option></Option></config></editWidget></field><field name=\"uuid\"><editWidget type=\"Hidden\"><config><Option type=\"Map\"></Option></config></editWidget></field></fieldConfiguration><aliases><alias field=\"id\" name=\"Number\"/><alias field=\"data\" name=\"File\"/><alias field=\"content_type\" name=\"Type\"/></aliases><previewExpression>\"id\"</previewExpression></qgis>',1);\n"
}

/// The styles by which QGIS opens them.
///
/// # Errors
///
/// Want of memory.
pub fn styles(alloc: Global) -> Result<String, AllocError>
    ensures { IfOk result (λ text. string_bytes text ≡ styles) }
{
    let rows = rows_style_row();
    let outlines = outlines_style_row();
    let media = media_style_row();
    format!(in alloc; "{rows}{outlines}{media}")
}
