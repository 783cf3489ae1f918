// Requests that a world is prepared by, and one that its files stop in, as data.
use crate::loans::{A, B, C, CORNER, LoanStep, Wish};
use sheet_types::command::{Mapping, Mode};
use test_values::Asks;

// A moment after those of the requests before.
const LATER: &str = "2024-05-01T09:30:00.000Z";

// The tile of zoom 2 beside the corner.
const BESIDE: [i64; 5] = [2, 1, 1, 0, 0];

/// A tile, a medium and a row, and a link of the first two. The number of a request, and of its receipt, is its place
/// from 1 on.
pub const ITEMS: [Wish; 4] = [
    Wish::Of(A, Asks::Tile(1, [2, 3, 3])),
    Wish::Of(A, Asks::Medium(2)),
    Wish::Of(A, Asks::Row(3, 5, 4096)),
    Wish::Of(A, Asks::Link(Mapping::TilesMedia, 1, 2)),
];

/// Makes a loan, and ends it: into the archive come the tile 1 in the corner with the medium 2, linked, and the row 3
/// in the tile beside it with the tile 4 elsewhere, linked; then the archive lends the corner to B, the medium 5
/// comes into B, and B is taken home.
pub const LOANS: [Wish; 9] = [
    Wish::Of(A, Asks::Tile(1, [2, 0, 0])),
    Wish::Of(A, Asks::Medium(2)),
    Wish::Of(A, Asks::Link(Mapping::TilesMedia, 1, 2)),
    Wish::Of(A, Asks::Row(3, 1500, 4096)),
    Wish::Of(A, Asks::Tile(4, [2, 3, 3])),
    Wish::Of(A, Asks::Link(Mapping::RowsTiles, 3, 4)),
    Wish::Split(A, B, Mode::Strict, CORNER),
    Wish::Of(B, Asks::Medium(5)),
    Wish::Merge(B, A, 8),
];

/// What a world was asked before: the items, or so many of the loans.
#[derive(Clone, Copy)]
pub enum Before {
    Items,
    Loans(usize),
}

/// The request 20, later than all others; or one that came before, by its number.
#[derive(Clone, Copy)]
pub enum Asked {
    Later(Wish),
    Again(u32, Wish),
}

/// A request, what it is told, and where all stands before it and after it: of each store, the archive's first, the
/// items by kind and number, and the links.
#[derive(Clone, Copy)]
pub struct Scene {
    pub before: Before,
    pub asks: Asked,
    pub told: i64,
    pub stood: &'static str,
    pub stands: &'static str,
}

impl Scene {
    pub fn step(&self) -> LoanStep {
        match self.asks {
            Asked::Later(wish) => LoanStep {
                number: 20,
                at: LATER,
                wish,
            },
            Asked::Again(number, wish) => LoanStep::now(number, wish),
        }
    }
}

const FOUR: &str = "1;2;3;tile-medium 1 2;|";

const LENT: &str = "4;3;row-tile 3 4;|1;2;tile-medium 1 2;|";

const UNLENT: &str = "1;4;2;3;tile-medium 1 2;row-tile 3 4;|";

const HOME: &str = "1;4;2;5;3;tile-medium 1 2;row-tile 3 4;|";

pub const ADDS: Scene = Scene {
    before: Before::Items,
    asks: Asked::Later(Wish::Of(A, Asks::Tile(7, [2, 1, 1]))),
    told: 5,
    stood: FOUR,
    stands: "1;7;2;3;tile-medium 1 2;|",
};

pub const DELETES: Scene = Scene {
    before: Before::Items,
    asks: Asked::Later(Wish::Of(A, Asks::Delete(3))),
    told: 5,
    stood: FOUR,
    stands: "1;2;tile-medium 1 2;|",
};

pub const LINKS: Scene = Scene {
    before: Before::Items,
    asks: Asked::Later(Wish::Of(A, Asks::Link(Mapping::RowsMedia, 3, 2))),
    told: 5,
    stood: FOUR,
    stands: "1;2;3;tile-medium 1 2;row-medium 3 2;|",
};

pub const UNLINKS: Scene = Scene {
    before: Before::Items,
    asks: Asked::Later(Wish::Of(A, Asks::Unlink(Mapping::TilesMedia, 1, 2))),
    told: 5,
    stood: FOUR,
    stands: "1;2;3;|",
};

/// Its receipt is the second.
pub const COMES_AGAIN: Scene = Scene {
    before: Before::Items,
    asks: Asked::Again(2, Wish::Of(A, Asks::Medium(2))),
    told: 2,
    stood: FOUR,
    stands: FOUR,
};

/// The medium is linked.
pub const IS_REFUSED: Scene = Scene {
    before: Before::Items,
    asks: Asked::Later(Wish::Of(A, Asks::Delete(2))),
    told: -14,
    stood: FOUR,
    stands: FOUR,
};

pub const LENDS: Scene = Scene {
    before: Before::Loans(6),
    asks: Asked::Later(Wish::Split(A, B, Mode::Strict, CORNER)),
    told: 7,
    stood: UNLENT,
    stands: LENT,
};

pub const LENDS_ALONG_LINKS: Scene = Scene {
    before: Before::Loans(6),
    asks: Asked::Later(Wish::Split(A, B, Mode::Follow, BESIDE)),
    told: 7,
    stood: UNLENT,
    stands: "1;2;tile-medium 1 2;|4;3;row-tile 3 4;|",
};

pub const LENDS_ON: Scene = Scene {
    before: Before::Loans(7),
    asks: Asked::Later(Wish::Split(B, C, Mode::Strict, CORNER)),
    told: 8,
    stood: LENT,
    stands: "4;3;row-tile 3 4;||1;2;tile-medium 1 2;|",
};

pub const TAKES_HOME: Scene = Scene {
    before: Before::Loans(8),
    asks: Asked::Later(Wish::Merge(B, A, 8)),
    told: 9,
    stood: "4;3;row-tile 3 4;|1;2;5;tile-medium 1 2;|",
    stands: HOME,
};

/// A link of the row leads to a tile outside.
pub const IS_NOT_LENT: Scene = Scene {
    before: Before::Loans(6),
    asks: Asked::Later(Wish::Split(A, B, Mode::Strict, BESIDE)),
    told: -18,
    stood: UNLENT,
    stands: UNLENT,
};

pub const IS_HOME_AGAIN: Scene = Scene {
    before: Before::Loans(9),
    asks: Asked::Again(9, Wish::Merge(B, A, 8)),
    told: 9,
    stood: HOME,
    stands: HOME,
};
