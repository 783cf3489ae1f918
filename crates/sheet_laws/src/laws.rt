//! Laws of the model, each the contract of a function that does nothing.
ghost use Rattle.sheet_laws.specs.Laws.{NewWorldIsRegister, AddKeepsRegister, DeleteKeepsRegister, LinkKeepsRegister};
ghost use Rattle.sheet_laws.specs.Laws.{UnlinkKeepsRegister, SplitKeepsRegister, MergeKeepsRegister};
ghost use Rattle.sheet_laws.specs.Laws.{StepKeepsRegister, RunKeepsRegister, RunOfBoth, RepeatChangesNothing};
ghost use Rattle.sheet_laws.specs.Laws.{MovesWhole, FollowIsLeast, LineIsReadBack, OneWorld, StandsWithoutFault};
ghost use Rattle.sheet_laws.specs.Laws.{OpenedIsRegister};

/// A new world of a good frame is a register.
pub fn new_world_is_register()
    ensures { NewWorldIsRegister }
{}

/// Whatever is asked to be added, the world stays a register.
pub fn add_keeps_register()
    ensures { AddKeepsRegister }
{}

/// Whatever is asked to be deleted, the world stays a register.
pub fn delete_keeps_register()
    ensures { DeleteKeepsRegister }
{}

/// Whatever is asked to be linked, the world stays a register.
pub fn link_keeps_register()
    ensures { LinkKeepsRegister }
{}

/// Whatever is asked to be unlinked, the world stays a register.
pub fn unlink_keeps_register()
    ensures { UnlinkKeepsRegister }
{}

/// Whatever is asked to be lent, in either mode, the world stays a register.
pub fn split_keeps_register()
    ensures { SplitKeepsRegister }
{}

/// Whatever is asked to be merged, the world stays a register.
pub fn merge_keeps_register()
    ensures { MergeKeepsRegister }
{}

/// Each request leaves the world a register, also where memory or the store failed.
pub fn step_keeps_register()
    ensures { StepKeepsRegister }
{}

/// Each list of requests leaves the world a register.
pub fn run_keeps_register()
    ensures { RunKeepsRegister }
{}

/// A run over two lists is one over the first, and from there one over the second.
pub fn run_of_both()
    ensures { RunOfBoth }
{}

/// A request that comes again gets the kept receipt, and changes nothing.
pub fn repeat_changes_nothing()
    ensures { RepeatChangesNothing }
{}

/// What is held after a request was held before it, content and all, or is what the request adds.
pub fn moves_whole()
    ensures { MovesWhole }
{}

/// A cut that follows links takes no more than every closed set that holds its start.
pub fn follow_is_least()
    ensures { FollowIsLeast }
{}

/// A line is read as the one entry that wrote it, and no other text is read.
pub fn line_is_read_back()
    ensures { LineIsReadBack }
{}

/// No list of stores stands for two worlds.
pub fn one_world()
    ensures { OneWorld }
{}

/// Stores that stand for a world have none of the nine faults of opening.
pub fn stands_without_fault()
    ensures { StandsWithoutFault }
{}

/// A world that stores stand for is a register.
pub fn opened_is_register()
    ensures { OpenedIsRegister }
{}
