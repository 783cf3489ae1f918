//! What comes back by a merge, what may come twice, and what is gone.
ghost use Rattle.sheet_examples.specs.Returning.{ThereAndBack, ColumnThereAndBack, CrossedLinks, ContentsAndLinks};
ghost use Rattle.sheet_examples.specs.Returning.{CollisionOnReturn, ColumnCollision, SplitThatComesTwice};
ghost use Rattle.sheet_examples.specs.Returning.{KeptAfterMerge, RefusedReturns, EmptiedLoanWithALoan, LentDown};
ghost use Rattle.sheet_examples.specs.Returning.{BroughtUp, InPlace};

/// Two tiles are lent and brought back, their bytes as before.
pub fn there_and_back()
    ensures { ThereAndBack }
{}

/// The same over a column.
pub fn column_there_and_back()
    ensures { ColumnThereAndBack }
{}

/// Links keep their ends, there and back.
pub fn crossed_links()
    ensures { CrossedLinks }
{}

/// The same over a column, with the contents.
pub fn contents_and_links()
    ensures { ContentsAndLinks }
{}

/// A tile comes back to a place that was taken in the meantime.
pub fn collision_on_return()
    ensures { CollisionOnReturn }
{}

/// The same over a column.
pub fn column_collision()
    ensures { ColumnCollision }
{}

/// A split is asked for twice and carried out once.
pub fn split_that_comes_twice()
    ensures { SplitThatComesTwice }
{}

/// A receipt is kept after the merge of the package that answered it.
pub fn kept_after_merge()
    ensures { KeptAfterMerge }
{}

/// Merges and splits that are refused, each for one reason.
pub fn refused_returns()
    ensures { RefusedReturns }
{}

/// A loan lends all that it has; its loan is counted as its own.
pub fn emptied_loan_with_a_loan()
    ensures { EmptiedLoanWithALoan }
{}

/// A tile is lent down to the greatest depth, from where it is lent no further.
pub fn lent_down()
    ensures { LentDown }
{}

/// It comes back level by level, with all receipts.
pub fn brought_up()
    ensures { BroughtUp }
{}

/// What comes back, and what is taken out, leaves all in its order.
pub fn in_place()
    ensures { InPlace }
{}
