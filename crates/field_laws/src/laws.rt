//! Laws of what an edited file comes home as, each the contract of a function that does nothing.
ghost use Rattle.field_laws.specs.Changing.{NothingToDo, OldNamesDiffer, OnlyWhatDiffers, ChangesMake, MoreAdds};
ghost use Rattle.field_laws.specs.Changing.{NothingIsRefused, ChangesComeHome, RoomForBoth, StoppedListComesAgain};
ghost use Rattle.field_laws.specs.Changing.{StoppedChangesComeHome};
ghost use Rattle.field_laws.specs.Example.{EmptyArchiveTakes};
ghost use Rattle.field_laws.specs.Laws.{SameKeyIsSameContent, OldNamesHold};

/// Contents are told apart byte by byte.
pub fn same_key_is_same_content()
    ensures { SameKeyIsSameContent }
{}

/// An item of the file that is called by an identity of the package has the content that the package has under it.
pub fn old_names_hold()
    ensures { OldNamesHold }
{}

/// No two items of a file are called by one identity of the package.
pub fn old_names_differ()
    ensures { OldNamesDiffer }
{}

/// Of each content as many items are new as the file has more of it, and as many go as it has fewer.
pub fn only_what_differs()
    ensures { OnlyWhatDiffers }
{}

/// A file that lists what the package holds asks for nothing.
pub fn nothing_to_do()
    ensures { NothingToDo }
{}

/// Where each request got a receipt, the package holds what the file has, and nothing else changed.
pub fn changes_make()
    ensures { ChangesMake }
{}

/// Where nothing is taken away, the package holds what it had, and what is new in the file.
pub fn more_adds()
    ensures { MoreAdds }
{}

/// Where the package can take the file, no request is refused.
pub fn nothing_is_refused()
    ensures { NothingIsRefused }
{}

/// Where neither memory nor the store fails either, each request gets a receipt, and the package holds what it is to.
pub fn changes_come_home()
    ensures { ChangesComeHome }
{}

/// Where there is room for what is held and for what comes, the limits of the package are kept.
pub fn room_for_both()
    ensures { RoomForBoth }
{}

/// A list that was stopped, and comes again whole, ends where a run of the whole list ends.
pub fn stopped_list_comes_again()
    ensures { StoppedListComesAgain }
{}

/// So changes that were stopped, and come again whole, make what they would have made at once.
pub fn stopped_changes_come_home()
    ensures { StoppedChangesComeHome }
{}

/// An empty archive can take a file with one tile: all premises hold there.
pub fn empty_archive_takes()
    ensures { EmptyArchiveTakes }
{}
