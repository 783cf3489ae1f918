//! How each table of an export is drawn and edited, as a layer of a project has it (QML of QGIS 3).
ghost use Rattle.std.specs.Prelude.{◌≡◌};
ghost use Rattle.view_export.specs.Styles.{outlines_style};
ghost use Rattle.view_project.specs.LinkStyles.{marks_of_sheets_style, media_of_marks_style, media_of_sheets_style};
ghost use Rattle.view_project.specs.NumberedStyles.{marks_style, media_style};

/// Marks: red dots with their labels, and a form whose codes are from 0 to 999999. A row is named by
/// its number and its label.
pub(crate) fn marks_style() -> &'static str
    ensures { result.now ≡ marks_style }
{
    "<renderer-v2 type=\"singleSymbol\"><symbols><symbol type=\"marker\" name=\"0\" alpha=\"1\"><layer class=\"SimpleMarker\" enabled=\"1\"><Option type=\"Map\"><Option name=\"color\" value=\"214,40,40,255\" type=\"QString\"/><Option name=\"outline_color\" value=\"255,255,255,255\" type=\"QString\"/><Option name=\"name\" value=\"circle\" type=\"QString\"/><Option name=\"size\" value=\"3\" type=\"QString\"/></Option></layer></symbol></symbols></renderer-v2><labeling type=\"simple\"><settings><text-style fieldName=\"label\" fontSize=\"9\"/><placement dist=\"1\"/></settings></labeling><fieldConfiguration><field name=\"id\"><editWidget type=\"Hidden\"><config><Option type=\"Map\"></Option></config></editWidget></field><field name=\"code\"><editWidget type=\"Range\"><config><Option type=\"Map\"><Option name=\"Min\" value=\"0\" type=\"int\"/><Option name=\"Max\" value=\"999999\" type=\"int\"/><Option name=\"AllowNull\" value=\"false\" type=\"bool\"/></Option></config></editWidget></field><field name=\"label\"><editWidget type=\"TextEdit\"><config><Option type=\"Map\"><Option name=\"IsMultiline\" value=\"false\" type=\"bool\"/></Option></config></editWidget></field><field name=\"uuid\"><editWidget type=\"Hidden\"><config><Option type=\"Map\"></Option></config></editWidget></field></fieldConfiguration><aliases><alias field=\"code\" name=\"Code\"/><alias field=\"label\" name=\"Label\"/></aliases><previewExpression>concat(\"id\", &apos;: &apos;, \"label\")</previewExpression>"
}

/// Outlines of sheets: edges alone, and number and place for a name.
pub(crate) fn outlines_style() -> &'static str
    ensures { result.now ≡ outlines_style }
{
    "<renderer-v2 type=\"singleSymbol\"><symbols><symbol type=\"fill\" name=\"0\" alpha=\"1\"><layer class=\"SimpleFill\" enabled=\"1\"><Option type=\"Map\"><Option name=\"style\" value=\"no\" type=\"QString\"/><Option name=\"outline_color\" value=\"60,60,60,255\" type=\"QString\"/></Option></layer></symbol></symbols></renderer-v2><fieldConfiguration><field name=\"uuid\"><editWidget type=\"Hidden\"><config><Option type=\"Map\"></Option></config></editWidget></field></fieldConfiguration><aliases><alias field=\"id\" name=\"Sheet\"/></aliases><previewExpression>\"id\" || &apos;: &apos; || \"zoom_level\" || &apos;, &apos; || \"tile_column\" || &apos;, &apos; || \"tile_row\"</previewExpression>"
}

/// Media: a file that is embedded, and one of two types. A row is named by its number and its type.
pub(crate) fn media_style() -> &'static str
    ensures { result.now ≡ media_style }
{
    "<fieldConfiguration><field name=\"id\"><editWidget type=\"TextEdit\"><config><Option type=\"Map\"></Option></config></editWidget></field><field name=\"data\"><editWidget type=\"Binary\"><config><Option type=\"Map\"></Option></config></editWidget></field><field name=\"content_type\"><editWidget type=\"ValueMap\"><config><Option type=\"Map\"><Option name=\"map\" type=\"List\"><Option type=\"Map\"><Option name=\"photograph (JPEG)\" value=\"image/jpeg\" type=\"QString\"/></Option><Option type=\"Map\"><Option name=\"picture (PNG)\" value=\"image/png\" type=\"QString\"/></Option></Option></Option></config></editWidget></field><field name=\"uuid\"><editWidget type=\"Hidden\"><config><Option type=\"Map\"></Option></config></editWidget></field></fieldConfiguration><aliases><alias field=\"id\" name=\"Number\"/><alias field=\"data\" name=\"File\"/><alias field=\"content_type\" name=\"Type\"/></aliases><previewExpression>concat(\"id\", &apos;: &apos;, \"content_type\")</previewExpression>"
}

/// Links of a mark and a medium, each chosen from a list.
pub(crate) fn media_of_marks_style() -> &'static str
    ensures { result.now ≡ media_of_marks_style }
{
    "<fieldConfiguration><field name=\"id\"><editWidget type=\"Hidden\"><config><Option type=\"Map\"></Option></config></editWidget></field><field name=\"base_id\"><editWidget type=\"RelationReference\"><config><Option type=\"Map\"><Option name=\"Relation\" value=\"rows_media_base_id\" type=\"QString\"/><Option name=\"AllowNULL\" value=\"true\" type=\"bool\"/></Option></config></editWidget></field><field name=\"related_id\"><editWidget type=\"RelationReference\"><config><Option type=\"Map\"><Option name=\"Relation\" value=\"rows_media_related_id\" type=\"QString\"/><Option name=\"AllowNULL\" value=\"true\" type=\"bool\"/></Option></config></editWidget></field></fieldConfiguration><aliases><alias field=\"base_id\" name=\"Mark\"/><alias field=\"related_id\" name=\"Medium\"/></aliases><previewExpression>\"id\"</previewExpression>"
}

/// Links of a sheet and a medium.
pub(crate) fn media_of_sheets_style() -> &'static str
    ensures { result.now ≡ media_of_sheets_style }
{
    "<fieldConfiguration><field name=\"id\"><editWidget type=\"Hidden\"><config><Option type=\"Map\"></Option></config></editWidget></field><field name=\"base_id\"><editWidget type=\"RelationReference\"><config><Option type=\"Map\"><Option name=\"Relation\" value=\"tiles_media_base_id\" type=\"QString\"/><Option name=\"AllowNULL\" value=\"true\" type=\"bool\"/></Option></config></editWidget></field><field name=\"related_id\"><editWidget type=\"RelationReference\"><config><Option type=\"Map\"><Option name=\"Relation\" value=\"tiles_media_related_id\" type=\"QString\"/><Option name=\"AllowNULL\" value=\"true\" type=\"bool\"/></Option></config></editWidget></field></fieldConfiguration><aliases><alias field=\"base_id\" name=\"Sheet\"/><alias field=\"related_id\" name=\"Medium\"/></aliases><previewExpression>\"id\"</previewExpression>"
}

/// Links of a mark and a sheet.
pub(crate) fn marks_of_sheets_style() -> &'static str
    ensures { result.now ≡ marks_of_sheets_style }
{
    "<fieldConfiguration><field name=\"id\"><editWidget type=\"Hidden\"><config><Option type=\"Map\"></Option></config></editWidget></field><field name=\"base_id\"><editWidget type=\"RelationReference\"><config><Option type=\"Map\"><Option name=\"Relation\" value=\"rows_tiles_base_id\" type=\"QString\"/><Option name=\"AllowNULL\" value=\"true\" type=\"bool\"/></Option></config></editWidget></field><field name=\"related_id\"><editWidget type=\"RelationReference\"><config><Option type=\"Map\"><Option name=\"Relation\" value=\"rows_tiles_related_id\" type=\"QString\"/><Option name=\"AllowNULL\" value=\"true\" type=\"bool\"/></Option></config></editWidget></field></fieldConfiguration><aliases><alias field=\"base_id\" name=\"Mark\"/><alias field=\"related_id\" name=\"Sheet\"/></aliases><previewExpression>\"id\"</previewExpression>"
}
