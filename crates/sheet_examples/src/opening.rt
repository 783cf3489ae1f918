//! Which stores are live, and which fault opening answers.
ghost use Rattle.sheet_examples.specs.Opening.{Orphan, Lent, Returned, FoundDownwards, AnswersNoArchive};
ghost use Rattle.sheet_examples.specs.Opening.{AnswersTwoArchives, AnswersNotAPackage, StraysAreLeft};
ghost use Rattle.sheet_examples.specs.Opening.{AnswersTwoCopies, AnswersMissingPackage, AnswersForeignFrame};
ghost use Rattle.sheet_examples.specs.Opening.{AnswersDangling, AnswersOutOfAccount, AnswersAltered, NewStoreStands};

/// A split that stopped before the parent's commit leaves an orphan.
pub fn orphan()
    ensures { Orphan }
{}

/// A loan and its archive are live, in whatever order they are handed in.
pub fn lent()
    ensures { Lent }
{}

/// After its return the loan's store is a stray.
pub fn returned()
    ensures { Returned }
{}

/// Loans of loans are found from the archive downwards.
pub fn found_downwards()
    ensures { FoundDownwards }
{}

/// No store is an archive.
pub fn answers_no_archive()
    ensures { AnswersNoArchive }
{}

/// Two stores are archives.
pub fn answers_two_archives()
    ensures { AnswersTwoArchives }
{}

/// The archive's tables are not formed.
pub fn answers_not_a_package()
    ensures { AnswersNotAPackage }
{}

/// A stray is not looked at.
pub fn strays_are_left()
    ensures { StraysAreLeft }
{}

/// Two stores are of one loan.
pub fn answers_two_copies()
    ensures { AnswersTwoCopies }
{}

/// The loan's store is left out.
pub fn answers_missing_package()
    ensures { AnswersMissingPackage }
{}

/// A loan of another frame, another parent, another depth.
pub fn answers_foreign_frame()
    ensures { AnswersForeignFrame }
{}

/// The archive's rows and identities are not tied.
pub fn answers_dangling()
    ensures { AnswersDangling }
{}

/// The number of the last receipt is wrong.
pub fn answers_out_of_account()
    ensures { AnswersOutOfAccount }
{}

/// The content of an item was changed.
pub fn answers_altered()
    ensures { AnswersAltered }
{}

/// The store of a new archive stands for the new world.
pub fn new_store_stands()
    ensures { NewStoreStands }
{}
