//! Which ledgers are sound, for which worlds they account, and which items are altered.
ghost use Rattle.sheet_examples.specs.Ledgers.{SoundLedger, LedgerOfRequests, WrongNumbers, WrongLines, WrongThings};
ghost use Rattle.sheet_examples.specs.Ledgers.{WrongMoves, AddedTwice, WrongHoldings, WrongSums, NothingHeld};
ghost use Rattle.sheet_examples.specs.Ledgers.{NoRegister, ShortNames, TakenKey, AlteredItems, AlteredThenDeleted};

/// A tile is added, lent and brought back.
pub fn sound_ledger()
    ensures { SoundLedger }
{}

/// Three requests leave its receipts and its worlds.
pub fn ledger_of_requests()
    ensures { LedgerOfRequests }
{}

/// Numbers, requests and counts that are wrong.
pub fn wrong_numbers()
    ensures { WrongNumbers }
{}

/// Receipts that do not fit their lines.
pub fn wrong_lines()
    ensures { WrongLines }
{}

/// An item with two ends, and items out of their order.
pub fn wrong_things()
    ensures { WrongThings }
{}

/// Moves from where a thing is not, of another size or digest, or under a used name.
pub fn wrong_moves()
    ensures { WrongMoves }
{}

/// An identity that is added and added again, with or without a deletion between.
pub fn added_twice()
    ensures { AddedTwice }
{}

/// Worlds that a sound ledger does not account for.
pub fn wrong_holdings()
    ensures { WrongHoldings }
{}

/// Worlds of which one sum does not add up.
pub fn wrong_sums()
    ensures { WrongSums }
{}

/// Nothing is held of all that was added, and no sum adds up.
pub fn nothing_held()
    ensures { NothingHeld }
{}

/// Worlds that are no register: a loan is gone, a place is there twice.
pub fn no_register()
    ensures { NoRegister }
{}

/// Two links under one key, were identities of any length.
pub fn short_names()
    ensures { ShortNames }
{}

/// The second of them is accepted, and the ledger is unsound after it.
pub fn taken_key()
    ensures { TakenKey }
{}

/// Items whose content is not what an Add receipt says.
pub fn altered_items()
    ensures { AlteredItems }
{}

/// After an altered item is deleted the ledger is unsound.
pub fn altered_then_deleted()
    ensures { AlteredThenDeleted }
{}
