//! Which words each command of the program has, in the order in which the help lists them.
use crate::building::Entry::{Many, One};
use crate::building::Word::{
    Flag, FlagBeside, Last, LastOr, Needed, Place, PlaceUnless, ShortFlag, Value, ValueBeside,
    ValueInstead,
};
use crate::building::{Entry, Verb, Word};
use crate::help::{
    BRING_WORDS, COMPLETIONS_WORDS, FOLDER_WORDS, HOLDS_WORDS, REHEARSE_WORDS, SESSION_WORDS,
    SEVERAL_WORDS, VERB_WORDS,
};

/// Where a register is.
const FOLDER: Word = Place("folder", "FOLDER", "Where the packages are, as maps");

/// A package by its whole name.
const PACKAGE: Word = Place(
    "package",
    "PACKAGE",
    "The package, by its UUID or the first digits of it, as a000",
);

/// The frame of a new archive.
const FRAME: Word = Needed(
    "frame",
    "FRAME",
    "Its frame, as 25832,0,0,4096,4096,256,256,0,3,1,1",
);

/// What `--log` is for.
const LOG: &str = "Tell standard error of each request: moment, method, path, status";

/// When a request of a verb was made.
const AT: Word = Value(
    "at",
    "AT",
    "Moment of the request, as 2024-05-01T08:00:00.000Z; else that of the clock",
);

/// What a request of a verb is called.
const REQUEST: Word = Value("request", "UUID", "Identity of the request; else a new one");

/// Whether a verb only shows its request.
const DRY_RUN: Word = Flag("dry-run", "Print the request as JSON, and change nothing");

/// Whether a verb prints what it did.
const QUIET: Word = ShortFlag("quiet", 'q', "Print nothing where it ends well");

/// Whether a heading is bold on whatever it is printed.
const COLOR: Word = Flag(
    "color",
    "Make the heading bold; else it is so on a terminal, unless NO_COLOR is set",
);

/// Whether what is looked at is told to other programs.
const JSON: Word = Flag("json", "The same as one JSON array, an object a line");

/// What is made by a verb.
const AS: Word = Value("as", "UUID", "Identity of what is made; else a new one");

/// When the requests of a verb that makes several were made.
const SEVERAL_AT: Word = Value(
    "at",
    "AT",
    "Moment of the requests, as 2024-05-01T08:00:00.000Z; else that of the clock",
);

/// What people call packages and sheets.
const NAMES: Word = Value(
    "names",
    "FILE",
    "What people call packages and sheets, as CSV: uuid,name; else FOLDER/names.csv, if it is there",
);

/// Adds an item; what, its own commands say.
pub(crate) const PUT: Verb = Verb {
    name: "put",
    about: "Adds a tile, a medium or a mark to a package",
    after: VERB_WORDS,
    words: &[FOLDER, Place("package", "PACKAGE", "The package, as c3f1")],
};

/// What `put` adds of tiles.
pub(crate) const TILE_KINDS: &[Verb] = &[
    Verb {
        name: "tile",
        about: "Adds a tile at a place, from a file",
        after: VERB_WORDS,
        words: &[
            AT,
            REQUEST,
            DRY_RUN,
            QUIET,
            AS,
            Place(
                "place",
                "PLACE",
                "Where it lies, as 5/0/2: zoom, column, row",
            ),
            Place(
                "file",
                "FILE",
                "Its bytes, as sheet.png, or - for standard input",
            ),
        ],
    },
    Verb {
        name: "tiles",
        about: "Adds the tiles of a tree of files ZOOM/COLUMN/ROW.png",
        after: SEVERAL_WORDS,
        words: &[
            SEVERAL_AT,
            QUIET,
            Flag("tms", "The rows of the files run upwards, as in a TMS"),
            Place(
                "directory",
                "DIRECTORY",
                "The tree, as gdal2tiles and QGIS write it",
            ),
        ],
    },
];

/// What else it adds.
pub(crate) const OTHER_KINDS: &[Verb] = &[
    Verb {
        name: "media",
        about: "Adds a photograph or another medium, from a file",
        after: VERB_WORDS,
        words: &[
            AT,
            REQUEST,
            DRY_RUN,
            QUIET,
            AS,
            Place(
                "file",
                "FILE",
                "Its bytes, as harbour.jpg, or - for standard input",
            ),
            Value(
                "type",
                "TYPE",
                "Its content type, as image/png; else PNG, JPEG, PDF and plain text are known by their first bytes",
            ),
        ],
    },
    Verb {
        name: "mark",
        about: "Adds a survey mark: a point, a code and a label",
        after: VERB_WORDS,
        words: &[
            AT,
            REQUEST,
            DRY_RUN,
            QUIET,
            AS,
            Place(
                "point",
                "X,Y",
                "Where it is, in units of the reference system, as 503000.5,5959000",
            ),
            Place("code", "CODE", "What it is, by a number, as 220"),
            Place("label", "LABEL", "What it is called"),
        ],
    },
];

/// The shells that `completions` knows.
const SHELLS: &[Verb] = &[Verb {
    name: "bash",
    about: "For bash: eval \"$(sheetdesk completions bash)\"",
    after: COMPLETIONS_WORDS,
    words: &[],
}];

/// What makes an archive.
pub(crate) const MAKING: &[Entry] = &[One(Verb {
    name: "init",
    about: "Makes a new archive in a folder that holds no packages",
    after: FOLDER_WORDS,
    words: &[
        QUIET,
        FOLDER,
        Value(
            "archive",
            "UUID",
            "Identity of the archive, as a0000000-0000-4000-8000-000000000000; else a new one",
        ),
        Value(
            "at",
            "AT",
            "Moment at which it is made, as 2024-05-01T08:00:00.000Z; else that of the clock",
        ),
        FRAME,
    ],
})];

/// What lends, and brings home.
pub(crate) const LENDING: &[Entry] = &[
    One(Verb {
        name: "lend",
        about: "Lends the sheets of an area as a new package, with all that belongs to them",
        after: VERB_WORDS,
        words: &[
            AT,
            REQUEST,
            DRY_RUN,
            QUIET,
            AS,
            FOLDER,
            PlaceUnless(
                "first",
                "FROM|AREA",
                "The sheets, as 5/0-3/2: zoom, columns, rows; or before them the package that lends",
                "box",
            ),
            Last(
                "second",
                "AREA",
                "The sheets, where a package that lends is named; else the archive lends",
            ),
            ValueInstead(
                "box",
                "WEST,SOUTH,EAST,NORTH",
                "In place of AREA: the least area that covers this box, in units of the reference system",
                "zoom",
                "second",
            ),
            ValueBeside(
                "zoom",
                "ZOOM",
                "The zoom of the sheets that cover the box",
                &["box"],
            ),
            Flag("follow", "Take along what belongs to other sheets too"),
        ],
    }),
    One(Verb {
        name: "return",
        about: "Brings a loan home to the package that lent it",
        after: VERB_WORDS,
        words: &[
            AT,
            REQUEST,
            DRY_RUN,
            QUIET,
            FOLDER,
            Place("loan", "LOAN", "The loan, as c3f1"),
        ],
    }),
];

/// What links, and takes away.
pub(crate) const LINKING: &[Entry] = &[
    One(Verb {
        name: "join",
        about: "Links two items; their kinds tell how",
        after: VERB_WORDS,
        words: &[
            AT,
            REQUEST,
            DRY_RUN,
            QUIET,
            FOLDER,
            Place("first", "IDENTITY", "One item, as 6523"),
            Place("second", "IDENTITY", "The other, as 07c2"),
        ],
    }),
    One(Verb {
        name: "part",
        about: "Ends the link of two items",
        after: VERB_WORDS,
        words: &[
            AT,
            REQUEST,
            DRY_RUN,
            QUIET,
            FOLDER,
            Place("first", "IDENTITY", "One item, as 6523"),
            Place("second", "IDENTITY", "The other, as 07c2"),
        ],
    }),
    One(Verb {
        name: "drop",
        about: "Deletes an item, and with --yes its links before it",
        after: SEVERAL_WORDS,
        words: &[
            SEVERAL_AT,
            Flag(
                "yes",
                "End the links of the item, a request each; else an item that has links stays, and they are told",
            ),
            Flag(
                "dry-run",
                "Print the requests as JSON, a line each, and change nothing",
            ),
            QUIET,
            FOLDER,
            Place("identity", "IDENTITY", "The item, as 6523"),
        ],
    }),
];

/// What carries out requests, and looks at a register.
pub(crate) const LOOKS: &[Entry] = &[
    One(Verb {
        name: "apply",
        about: "Carries out one request, as JSON on standard input",
        after: FOLDER_WORDS,
        words: &[FOLDER],
    }),
    One(Verb {
        name: "import",
        about: "Carries out a list of requests and prints its report",
        after: FOLDER_WORDS,
        words: &[
            FOLDER,
            Place("file", "FILE", "The list of requests, as list.csv"),
        ],
    }),
    One(Verb {
        name: "status",
        about: "Prints a table of the packages that live",
        after: FOLDER_WORDS,
        words: &[FOLDER, JSON, COLOR],
    }),
    One(Verb {
        name: "log",
        about: "Prints the ledger, a line for each receipt",
        after: FOLDER_WORDS,
        words: &[
            FOLDER,
            Last(
                "package",
                "PACKAGE",
                "Receipts that name this package, by its first digits; else all",
            ),
            Value("from", "SEQ", "From this number on"),
            Value("last", "N", "The last N of them"),
            JSON,
            COLOR,
        ],
    }),
    One(Verb {
        name: "get",
        about: "Prints the bytes of a tile or a medium, or the label of a mark",
        after: FOLDER_WORDS,
        words: &[
            FOLDER,
            Place(
                "identity",
                "IDENTITY",
                "The item, by its identity or the first digits of it, as 6523",
            ),
            Last(
                "output",
                "FILE",
                "Where it is kept, as harbour.jpg; else it is printed",
            ),
        ],
    }),
    One(Verb {
        name: "explain",
        about: "Prints the whole way of an item, from receipt to receipt",
        after: FOLDER_WORDS,
        words: &[
            FOLDER,
            Place(
                "identity",
                "IDENTITY",
                "The item, by its identity or the first digits of it, as 6523",
            ),
            JSON,
        ],
    }),
    One(Verb {
        name: "receipt",
        about: "Prints the receipt of a request, as JSON",
        after: FOLDER_WORDS,
        words: &[
            FOLDER,
            Place(
                "request",
                "REQUEST",
                "Identity of the request, as 90000000-0000-4000-8000-000000000001",
            ),
        ],
    }),
];

/// What other programs read, or have written.
pub(crate) const FILES: &[Entry] = &[
    One(Verb {
        name: "manifest",
        about: "Prints what a package holds, a record for each item and link",
        after: FOLDER_WORDS,
        words: &[FOLDER, PACKAGE],
    }),
    One(Verb {
        name: "export",
        about: "Prints a package as SQL that makes a GeoPackage with true units",
        after: FOLDER_WORDS,
        words: &[
            FOLDER,
            PACKAGE,
            Value(
                "qgis",
                "NAME",
                "Print the QGIS project for the file of this name beside it, as crew.gpkg",
            ),
        ],
    }),
    One(Verb {
        name: "holds",
        about: "Prints SQL by which sqlite3 lists what an edited file holds",
        after: HOLDS_WORDS,
        words: &[
            Value(
                "tiles",
                "TABLE",
                "The pyramid of tiles of another program's file, as scans",
            ),
            ValueBeside(
                "points",
                "TABLE",
                "Its table of points, as marks",
                &["code", "label"],
            ),
            ValueBeside(
                "geometry",
                "COLUMN",
                "Its column of geometries, as geom",
                &["points"],
            ),
            ValueBeside(
                "code",
                "COLUMN",
                "Its column of codes, as number",
                &["points"],
            ),
            ValueBeside(
                "label",
                "COLUMN",
                "Its column of labels, as name",
                &["points"],
            ),
        ],
    }),
];

/// What brings an edited file home.
pub(crate) const FIELD: &[Entry] = &[
    One(Verb {
        name: "changes",
        about: "Prints the list of requests that makes a package hold what an edited file holds",
        after: BRING_WORDS,
        words: &[
            FOLDER,
            PACKAGE,
            Flag(
                "more",
                "Delete nothing and end no link; files of other programs may come",
            ),
            SEVERAL_AT,
            Flag(
                "summary",
                "Print how many requests there are, in place of the list",
            ),
        ],
    }),
    One(Verb {
        name: "bring",
        about: "Brings an edited file home: makes a package hold what the file holds",
        after: BRING_WORDS,
        words: &[
            FOLDER,
            PACKAGE,
            Flag(
                "more",
                "Delete nothing and end no link; files of other programs may come",
            ),
            SEVERAL_AT,
            Flag("dry-run", "Print the list of requests, and change nothing"),
            FlagBeside(
                "summary",
                "Print how many requests there are, in place of the list",
                "dry-run",
            ),
        ],
    }),
];

/// What draws a register.
pub(crate) const PICTURES: &[Entry] = &[
    One(Verb {
        name: "map",
        about: "Prints a drawing of who holds which sheets, as SVG",
        after: FOLDER_WORDS,
        words: &[
            FOLDER,
            Value(
                "zoom",
                "ZOOM",
                "The one zoom that is drawn, as 2; else all with at most 10,000 places, with marks and names",
            ),
            NAMES,
        ],
    }),
    One(Verb {
        name: "report",
        about: "Prints the register as one page of HTML, or the custody of one loan with places to sign",
        after: FOLDER_WORDS,
        words: &[
            FOLDER,
            Last(
                "package",
                "LOAN",
                "The custody page of this loan, as c3f1; else the page of the register",
            ),
            NAMES,
        ],
    }),
];

/// What keeps a register.
pub(crate) const KEEPING: &[Entry] = &[
    One(Verb {
        name: "audit",
        about: "Says whether all packages and receipts agree",
        after: FOLDER_WORDS,
        words: &[FOLDER],
    }),
    One(Verb {
        name: "serve",
        about: "Serves the packages as JSON over HTTP, on this machine alone",
        after: FOLDER_WORDS,
        words: &[
            FOLDER,
            Place("port", "PORT", "Where, on 127.0.0.1, as 8080"),
            LastOr(
                "count",
                "COUNT",
                "How many connections are served before the program ends, as 100",
                "1000000",
            ),
            Flag("log", LOG),
        ],
    }),
    One(Verb {
        name: "tidy",
        about: "Removes files that the register can do without",
        after: FOLDER_WORDS,
        words: &[QUIET, FOLDER],
    }),
    One(Verb {
        name: "rehearse",
        about: "Shows what a list of requests would come to, in memory, and keeps nothing",
        after: REHEARSE_WORDS,
        words: &[
            Needed(
                "archive",
                "UUID",
                "Identity of the archive, as a0000000-0000-4000-8000-000000000000",
            ),
            Needed(
                "at",
                "AT",
                "Moment at which it is made, as 2024-05-01T08:00:00.000Z",
            ),
            FRAME,
            ValueBeside(
                "serve",
                "PORT",
                "Then serve its world on 127.0.0.1 at this port, as 8080",
                &["count"],
            ),
            ValueBeside(
                "count",
                "COUNT",
                "How many connections are served before the program ends, as 100",
                &["serve"],
            ),
            FlagBeside("log", LOG, "serve"),
        ],
    }),
];

/// What carries out many commands, or helps to type them.
pub(crate) const SESSIONS: &[Entry] = &[
    One(Verb {
        name: "session",
        about: "Carries out the commands of a file, and prints each with its answer",
        after: SESSION_WORDS,
        words: &[
            Place("file", "FILE", "The commands, a line each, as first.txt"),
            Flag(
                "strict",
                "End at the first line whose status is not 0, with its status",
            ),
        ],
    }),
    Many(
        Verb {
            name: "completions",
            about: "Prints what a shell needs to complete the words of sheetdesk",
            after: COMPLETIONS_WORDS,
            words: &[],
        },
        SHELLS,
    ),
];
