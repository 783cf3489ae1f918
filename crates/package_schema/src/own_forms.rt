//! The forms of the user tables, the mapping tables, and the tables of this profile.
use sqlite_schema::schema::Kind;
use sqlite_value::keys::Order;
use store_sql::forms::{ColumnForm, TableForm};

/// The tiles (OGC GeoPackage 1.3, 2.2.8).
pub(crate) const TILES: TableForm<'static> = TableForm {
    name: b"sheet_tiles",
    columns: &[
        ColumnForm {
            name: b"id",
            kind: Kind::Integer,
            is_strict: true,
            not_null: false,
        },
        ColumnForm {
            name: b"zoom_level",
            kind: Kind::Integer,
            is_strict: true,
            not_null: true,
        },
        ColumnForm {
            name: b"tile_column",
            kind: Kind::Integer,
            is_strict: true,
            not_null: true,
        },
        ColumnForm {
            name: b"tile_row",
            kind: Kind::Integer,
            is_strict: true,
            not_null: true,
        },
        ColumnForm {
            name: b"tile_data",
            kind: Kind::Blob,
            is_strict: true,
            not_null: true,
        },
    ],
    key: Some(0),
    primary: &[0],
    uniques: &[&[2, 3, 4]],
    orders: &[Order::PLAIN],
    references: &[],
    is_counted: true,
};

/// The media (OGC 18-000).
pub(crate) const MEDIA: TableForm<'static> = TableForm {
    name: b"sheet_media",
    columns: &[
        ColumnForm {
            name: b"id",
            kind: Kind::Integer,
            is_strict: true,
            not_null: false,
        },
        ColumnForm {
            name: b"data",
            kind: Kind::Blob,
            is_strict: true,
            not_null: true,
        },
        ColumnForm {
            name: b"content_type",
            kind: Kind::Text,
            is_strict: true,
            not_null: true,
        },
    ],
    key: Some(0),
    primary: &[0],
    uniques: &[],
    orders: &[],
    references: &[],
    is_counted: true,
};

/// The attributes rows (OGC GeoPackage 1.3, 2.4.2).
pub(crate) const ROWS: TableForm<'static> = TableForm {
    name: b"sheet_rows",
    columns: &[
        ColumnForm {
            name: b"id",
            kind: Kind::Integer,
            is_strict: true,
            not_null: false,
        },
        ColumnForm {
            name: b"x",
            kind: Kind::Integer,
            is_strict: true,
            not_null: true,
        },
        ColumnForm {
            name: b"y",
            kind: Kind::Integer,
            is_strict: true,
            not_null: true,
        },
        ColumnForm {
            name: b"code",
            kind: Kind::Integer,
            is_strict: true,
            not_null: true,
        },
        ColumnForm {
            name: b"label",
            kind: Kind::Text,
            is_strict: true,
            not_null: true,
        },
    ],
    key: Some(0),
    primary: &[0],
    uniques: &[],
    orders: &[],
    references: &[],
    is_counted: true,
};

/// The media of tiles (OGC 18-000).
pub(crate) const TILES_MEDIA: TableForm<'static> = TableForm {
    name: b"tiles_media",
    columns: &[
        ColumnForm {
            name: b"base_id",
            kind: Kind::Integer,
            is_strict: true,
            not_null: true,
        },
        ColumnForm {
            name: b"related_id",
            kind: Kind::Integer,
            is_strict: true,
            not_null: true,
        },
    ],
    key: None,
    primary: &[],
    uniques: &[&[1, 2]],
    orders: &[Order::PLAIN],
    references: &[],
    is_counted: false,
};

/// The media of rows (OGC 18-000).
pub(crate) const ROWS_MEDIA: TableForm<'static> = TableForm {
    name: b"rows_media",
    columns: &[
        ColumnForm {
            name: b"base_id",
            kind: Kind::Integer,
            is_strict: true,
            not_null: true,
        },
        ColumnForm {
            name: b"related_id",
            kind: Kind::Integer,
            is_strict: true,
            not_null: true,
        },
    ],
    key: None,
    primary: &[],
    uniques: &[&[1, 2]],
    orders: &[Order::PLAIN],
    references: &[],
    is_counted: false,
};

/// The tiles of rows (OGC 18-000).
pub(crate) const ROWS_TILES: TableForm<'static> = TableForm {
    name: b"rows_tiles",
    columns: &[
        ColumnForm {
            name: b"base_id",
            kind: Kind::Integer,
            is_strict: true,
            not_null: true,
        },
        ColumnForm {
            name: b"related_id",
            kind: Kind::Integer,
            is_strict: true,
            not_null: true,
        },
    ],
    key: None,
    primary: &[],
    uniques: &[&[1, 2]],
    orders: &[Order::PLAIN],
    references: &[],
    is_counted: false,
};

/// The head (profile).
pub(crate) const HEADS: TableForm<'static> = TableForm {
    name: b"sheet_package",
    columns: &[
        ColumnForm {
            name: b"id",
            kind: Kind::Integer,
            is_strict: true,
            not_null: false,
        },
        ColumnForm {
            name: b"version",
            kind: Kind::Integer,
            is_strict: true,
            not_null: true,
        },
        ColumnForm {
            name: b"package",
            kind: Kind::Text,
            is_strict: true,
            not_null: true,
        },
        ColumnForm {
            name: b"parent",
            kind: Kind::Text,
            is_strict: true,
            not_null: true,
        },
        ColumnForm {
            name: b"depth",
            kind: Kind::Integer,
            is_strict: true,
            not_null: true,
        },
        ColumnForm {
            name: b"loan",
            kind: Kind::Integer,
            is_strict: true,
            not_null: true,
        },
        ColumnForm {
            name: b"created",
            kind: Kind::Text,
            is_strict: true,
            not_null: true,
        },
    ],
    key: Some(0),
    primary: &[0],
    uniques: &[],
    orders: &[],
    references: &[],
    is_counted: false,
};

/// The identities (profile).
pub(crate) const IDENTITIES: TableForm<'static> = TableForm {
    name: b"sheet_identity",
    columns: &[
        ColumnForm {
            name: b"kind",
            kind: Kind::Integer,
            is_strict: true,
            not_null: true,
        },
        ColumnForm {
            name: b"local_id",
            kind: Kind::Integer,
            is_strict: true,
            not_null: true,
        },
        ColumnForm {
            name: b"uuid",
            kind: Kind::Text,
            is_strict: true,
            not_null: true,
        },
    ],
    key: None,
    primary: &[1, 2],
    uniques: &[&[3], &[1, 2]],
    orders: &[Order::PLAIN, Order::PLAIN],
    references: &[],
    is_counted: false,
};

/// The receipts (profile).
pub(crate) const RECEIPTS: TableForm<'static> = TableForm {
    name: b"sheet_receipts",
    columns: &[
        ColumnForm {
            name: b"seq",
            kind: Kind::Integer,
            is_strict: true,
            not_null: false,
        },
        ColumnForm {
            name: b"request",
            kind: Kind::Text,
            is_strict: true,
            not_null: true,
        },
        ColumnForm {
            name: b"at",
            kind: Kind::Text,
            is_strict: true,
            not_null: true,
        },
        ColumnForm {
            name: b"line",
            kind: Kind::Text,
            is_strict: true,
            not_null: true,
        },
        ColumnForm {
            name: b"source",
            kind: Kind::Text,
            is_strict: true,
            not_null: true,
        },
        ColumnForm {
            name: b"target",
            kind: Kind::Text,
            is_strict: true,
            not_null: true,
        },
        ColumnForm {
            name: b"n_tiles",
            kind: Kind::Integer,
            is_strict: true,
            not_null: true,
        },
        ColumnForm {
            name: b"n_media",
            kind: Kind::Integer,
            is_strict: true,
            not_null: true,
        },
        ColumnForm {
            name: b"n_rows",
            kind: Kind::Integer,
            is_strict: true,
            not_null: true,
        },
        ColumnForm {
            name: b"n_links",
            kind: Kind::Integer,
            is_strict: true,
            not_null: true,
        },
        ColumnForm {
            name: b"n_bytes",
            kind: Kind::Integer,
            is_strict: true,
            not_null: true,
        },
    ],
    key: Some(0),
    primary: &[0],
    uniques: &[&[2]],
    orders: &[Order::PLAIN],
    references: &[],
    is_counted: false,
};

/// What receipts moved (profile).
pub(crate) const MOVED: TableForm<'static> = TableForm {
    name: b"sheet_items",
    columns: &[
        ColumnForm {
            name: b"seq",
            kind: Kind::Integer,
            is_strict: true,
            not_null: true,
        },
        ColumnForm {
            name: b"position",
            kind: Kind::Integer,
            is_strict: true,
            not_null: true,
        },
        ColumnForm {
            name: b"kind",
            kind: Kind::Integer,
            is_strict: true,
            not_null: true,
        },
        ColumnForm {
            name: b"base",
            kind: Kind::Text,
            is_strict: true,
            not_null: true,
        },
        ColumnForm {
            name: b"other",
            kind: Kind::Text,
            is_strict: true,
            not_null: true,
        },
        ColumnForm {
            name: b"size",
            kind: Kind::Integer,
            is_strict: true,
            not_null: true,
        },
        ColumnForm {
            name: b"fingerprint",
            kind: Kind::Text,
            is_strict: true,
            not_null: true,
        },
    ],
    key: None,
    primary: &[1, 2],
    uniques: &[&[1, 2]],
    orders: &[Order::PLAIN],
    references: &[],
    is_counted: false,
};
