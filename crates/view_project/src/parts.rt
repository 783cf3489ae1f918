//! What stands in every project: its beginning, the order of its layers, the relations between them and its end.
ghost use Rattle.std.specs.Prelude.{◌≡◌};
ghost use Rattle.view_project.specs.Parts.{beginning, closing, opening, relations, tree};

/// How a project begins.
pub(crate) fn beginning() -> &'static str
    ensures { result.now ≡ beginning }
{
    "<!DOCTYPE qgis PUBLIC 'http://mrcc.com/qgis.dtd' 'SYSTEM'>\n<qgis version=\"3.22.0\" projectname=\"\">\n<title>Field work</title>\n"
}

/// The layers, from the one that is drawn above all others.
pub(crate) fn tree() -> &'static str
    ensures { result.now ≡ tree }
{
    "<layer-tree-group>\n<layer-tree-layer id=\"layer_sheet_rows\" name=\"Marks\" checked=\"Qt::Checked\" expanded=\"0\"/>\n<layer-tree-layer id=\"layer_sheet_tile_identity\" name=\"Outlines of the sheets\" checked=\"Qt::Checked\" expanded=\"0\"/>\n<layer-tree-layer id=\"layer_sheet_media\" name=\"Photographs and other media\" checked=\"Qt::Checked\" expanded=\"0\"/>\n<layer-tree-layer id=\"layer_rows_media\" name=\"Media of marks\" checked=\"Qt::Checked\" expanded=\"0\"/>\n<layer-tree-layer id=\"layer_tiles_media\" name=\"Media of sheets\" checked=\"Qt::Checked\" expanded=\"0\"/>\n<layer-tree-layer id=\"layer_rows_tiles\" name=\"Marks of sheets\" checked=\"Qt::Checked\" expanded=\"0\"/>\n<layer-tree-layer id=\"layer_sheet_tiles\" name=\"Sheets\" checked=\"Qt::Checked\" expanded=\"0\"/>\n</layer-tree-group>\n"
}

/// What stands before the layers.
pub(crate) fn opening() -> &'static str
    ensures { result.now ≡ opening }
{
    "<projectlayers>\n"
}

/// What links lead from and to. A relation names layers by identities of more than ten letters:
/// QGIS replaces shorter ones.
pub(crate) fn relations() -> &'static str
    ensures { result.now ≡ relations }
{
    "</projectlayers>\n<relations>\n<relation id=\"rows_media_base_id\" name=\"Media of marks\" referencingLayer=\"layer_rows_media\" referencedLayer=\"layer_sheet_rows\" strength=\"Association\"><fieldRef referencingField=\"base_id\" referencedField=\"id\"/></relation>\n<relation id=\"rows_media_related_id\" name=\"Media of marks\" referencingLayer=\"layer_rows_media\" referencedLayer=\"layer_sheet_media\" strength=\"Association\"><fieldRef referencingField=\"related_id\" referencedField=\"id\"/></relation>\n<relation id=\"tiles_media_base_id\" name=\"Media of sheets\" referencingLayer=\"layer_tiles_media\" referencedLayer=\"layer_sheet_tile_identity\" strength=\"Association\"><fieldRef referencingField=\"base_id\" referencedField=\"id\"/></relation>\n<relation id=\"tiles_media_related_id\" name=\"Media of sheets\" referencingLayer=\"layer_tiles_media\" referencedLayer=\"layer_sheet_media\" strength=\"Association\"><fieldRef referencingField=\"related_id\" referencedField=\"id\"/></relation>\n<relation id=\"rows_tiles_base_id\" name=\"Marks of sheets\" referencingLayer=\"layer_rows_tiles\" referencedLayer=\"layer_sheet_rows\" strength=\"Association\"><fieldRef referencingField=\"base_id\" referencedField=\"id\"/></relation>\n<relation id=\"rows_tiles_related_id\" name=\"Marks of sheets\" referencingLayer=\"layer_rows_tiles\" referencedLayer=\"layer_sheet_tile_identity\" strength=\"Association\"><fieldRef referencingField=\"related_id\" referencedField=\"id\"/></relation>\n</relations>\n"
}

/// How a project ends. Without the property QGIS reads no reference system.
pub(crate) fn closing() -> &'static str
    ensures { result.now ≡ closing }
{
    "<properties><SpatialRefSys><ProjectionsEnabled type=\"int\">1</ProjectionsEnabled></SpatialRefSys></properties>\n</qgis>\n"
}
