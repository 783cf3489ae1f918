//! A story of nine requests, each with its receipt and the whole world after it.
ghost use Rattle.sheet_examples.specs.Story.{AddsARow, AddsATile, AddsAMedium, LinksThem, LendsThem, AddsToTheLoan};
ghost use Rattle.sheet_examples.specs.Story.{BringsThemBack, UnlinksThem, DeletesOne};

/// A row of four bytes is added to the new archive.
pub fn adds_a_row()
    ensures { AddsARow }
{}

/// A tile is added; it stands before the row.
pub fn adds_a_tile()
    ensures { AddsATile }
{}

/// A medium is added; it stands between them.
pub fn adds_a_medium()
    ensures { AddsAMedium }
{}

/// The tile and the medium are linked.
pub fn links_them()
    ensures { LinksThem }
{}

/// The quarter with the tile is lent: tile, medium and link leave the archive, and are all that the loan holds.
pub fn lends_them()
    ensures { LendsThem }
{}

/// A tile is added to the loan.
pub fn adds_to_the_loan()
    ensures { AddsToTheLoan }
{}

/// The loan comes back, with the receipt that stood in it, and is gone.
pub fn brings_them_back()
    ensures { BringsThemBack }
{}

/// The link is taken out.
pub fn unlinks_them()
    ensures { UnlinksThem }
{}

/// The tile is taken out.
pub fn deletes_one()
    ensures { DeletesOne }
{}
