//! The forms of the tables that OGC GeoPackage 1.3 and OGC 18-000 name.
use sqlite_schema::schema::Kind;
use sqlite_value::keys::Order;
use store_sql::forms::{ColumnForm, ReferenceForm, TableForm};

/// The reference systems (OGC GeoPackage 1.3, 1.1.2).
pub(crate) const SPATIAL_REFERENCE_SYSTEMS: TableForm<'static> = TableForm {
    name: b"gpkg_spatial_ref_sys",
    columns: &[
        ColumnForm {
            name: b"srs_name",
            kind: Kind::Text,
            is_strict: true,
            not_null: true,
        },
        ColumnForm {
            name: b"srs_id",
            kind: Kind::Integer,
            is_strict: true,
            not_null: false,
        },
        ColumnForm {
            name: b"organization",
            kind: Kind::Text,
            is_strict: true,
            not_null: true,
        },
        ColumnForm {
            name: b"organization_coordsys_id",
            kind: Kind::Integer,
            is_strict: true,
            not_null: true,
        },
        ColumnForm {
            name: b"definition",
            kind: Kind::Text,
            is_strict: true,
            not_null: true,
        },
        ColumnForm {
            name: b"description",
            kind: Kind::Text,
            is_strict: true,
            not_null: false,
        },
    ],
    key: Some(1),
    primary: &[0],
    uniques: &[],
    orders: &[],
    references: &[],
    is_counted: false,
};

/// The contents (OGC GeoPackage 1.3, 1.1.3).
pub(crate) const CONTENTS: TableForm<'static> = TableForm {
    name: b"gpkg_contents",
    columns: &[
        ColumnForm {
            name: b"table_name",
            kind: Kind::Text,
            is_strict: true,
            not_null: true,
        },
        ColumnForm {
            name: b"data_type",
            kind: Kind::Text,
            is_strict: true,
            not_null: true,
        },
        ColumnForm {
            name: b"identifier",
            kind: Kind::Text,
            is_strict: true,
            not_null: false,
        },
        ColumnForm {
            name: b"description",
            kind: Kind::Text,
            is_strict: true,
            not_null: false,
        },
        ColumnForm {
            name: b"last_change",
            kind: Kind::Text,
            is_strict: true,
            not_null: true,
        },
        ColumnForm {
            name: b"min_x",
            kind: Kind::Integer,
            is_strict: true,
            not_null: false,
        },
        ColumnForm {
            name: b"min_y",
            kind: Kind::Integer,
            is_strict: true,
            not_null: false,
        },
        ColumnForm {
            name: b"max_x",
            kind: Kind::Integer,
            is_strict: true,
            not_null: false,
        },
        ColumnForm {
            name: b"max_y",
            kind: Kind::Integer,
            is_strict: true,
            not_null: false,
        },
        ColumnForm {
            name: b"srs_id",
            kind: Kind::Integer,
            is_strict: true,
            not_null: false,
        },
    ],
    key: None,
    primary: &[1],
    uniques: &[&[1], &[3]],
    orders: &[Order::PLAIN, Order::PLAIN],
    references: &[ReferenceForm {
        columns: &[10],
        parent: b"gpkg_spatial_ref_sys",
        parent_columns: &[b"srs_id"],
    }],
    is_counted: false,
};

/// The tile matrix sets (OGC GeoPackage 1.3, 2.2.6).
pub(crate) const TILE_MATRIX_SETS: TableForm<'static> = TableForm {
    name: b"gpkg_tile_matrix_set",
    columns: &[
        ColumnForm {
            name: b"table_name",
            kind: Kind::Text,
            is_strict: true,
            not_null: true,
        },
        ColumnForm {
            name: b"srs_id",
            kind: Kind::Integer,
            is_strict: true,
            not_null: true,
        },
        ColumnForm {
            name: b"min_x",
            kind: Kind::Integer,
            is_strict: true,
            not_null: true,
        },
        ColumnForm {
            name: b"min_y",
            kind: Kind::Integer,
            is_strict: true,
            not_null: true,
        },
        ColumnForm {
            name: b"max_x",
            kind: Kind::Integer,
            is_strict: true,
            not_null: true,
        },
        ColumnForm {
            name: b"max_y",
            kind: Kind::Integer,
            is_strict: true,
            not_null: true,
        },
    ],
    key: None,
    primary: &[1],
    uniques: &[&[1]],
    orders: &[Order::PLAIN],
    references: &[
        ReferenceForm {
            columns: &[1],
            parent: b"gpkg_contents",
            parent_columns: &[b"table_name"],
        },
        ReferenceForm {
            columns: &[2],
            parent: b"gpkg_spatial_ref_sys",
            parent_columns: &[b"srs_id"],
        },
    ],
    is_counted: false,
};

/// The tile matrices (OGC GeoPackage 1.3, 2.2.7).
pub(crate) const TILE_MATRICES: TableForm<'static> = TableForm {
    name: b"gpkg_tile_matrix",
    columns: &[
        ColumnForm {
            name: b"table_name",
            kind: Kind::Text,
            is_strict: true,
            not_null: true,
        },
        ColumnForm {
            name: b"zoom_level",
            kind: Kind::Integer,
            is_strict: true,
            not_null: true,
        },
        ColumnForm {
            name: b"matrix_width",
            kind: Kind::Integer,
            is_strict: true,
            not_null: true,
        },
        ColumnForm {
            name: b"matrix_height",
            kind: Kind::Integer,
            is_strict: true,
            not_null: true,
        },
        ColumnForm {
            name: b"tile_width",
            kind: Kind::Integer,
            is_strict: true,
            not_null: true,
        },
        ColumnForm {
            name: b"tile_height",
            kind: Kind::Integer,
            is_strict: true,
            not_null: true,
        },
        ColumnForm {
            name: b"pixel_x_size",
            kind: Kind::Integer,
            is_strict: true,
            not_null: true,
        },
        ColumnForm {
            name: b"pixel_y_size",
            kind: Kind::Integer,
            is_strict: true,
            not_null: true,
        },
    ],
    key: None,
    primary: &[1, 2],
    uniques: &[&[1, 2]],
    orders: &[Order::PLAIN],
    references: &[ReferenceForm {
        columns: &[1],
        parent: b"gpkg_contents",
        parent_columns: &[b"table_name"],
    }],
    is_counted: false,
};

/// The relations (OGC 18-000).
pub(crate) const RELATIONS: TableForm<'static> = TableForm {
    name: b"gpkgext_relations",
    columns: &[
        ColumnForm {
            name: b"id",
            kind: Kind::Integer,
            is_strict: true,
            not_null: false,
        },
        ColumnForm {
            name: b"base_table_name",
            kind: Kind::Text,
            is_strict: true,
            not_null: true,
        },
        ColumnForm {
            name: b"base_primary_column",
            kind: Kind::Text,
            is_strict: true,
            not_null: true,
        },
        ColumnForm {
            name: b"related_table_name",
            kind: Kind::Text,
            is_strict: true,
            not_null: true,
        },
        ColumnForm {
            name: b"related_primary_column",
            kind: Kind::Text,
            is_strict: true,
            not_null: true,
        },
        ColumnForm {
            name: b"relation_name",
            kind: Kind::Text,
            is_strict: true,
            not_null: true,
        },
        ColumnForm {
            name: b"mapping_table_name",
            kind: Kind::Text,
            is_strict: true,
            not_null: true,
        },
    ],
    key: Some(0),
    primary: &[0],
    uniques: &[&[7]],
    orders: &[Order::PLAIN],
    references: &[],
    is_counted: false,
};
