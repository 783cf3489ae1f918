//! A tile that is added to an archive, lent, lent on and brought back; and worlds in which one part
//! alone is broken. What packages hold, and the last receipt of each.

use crate::receipts::{ARCHIVE, package, package_byte, package_word, receipts, things};
use crate::steps::{Of, Table, Told, cut, points, uuid, wrong_of};
use opening_faults::altered::least_altered;
use opening_verdict::holdings::sums_of;
use opening_verdict::tickets::{last_receipts, ticket_of};
use sheet_balance::accounts::{Account, account_of};
use sheet_balance::holders::archive_of;
use sheet_balance::holding::holds_what_is_kept;
use sheet_balance::homes::are_at_home;
use sheet_balance::judging::judge;
use sheet_balance::loans::are_loans;
use sheet_balance::sights::Sight;
use sheet_balance::splits::{lents_of, splits_of};
use sheet_balance::sums::sums_add_up;
use sheet_ledger::soundness::is_sound;
use sheet_types::error::OutOfMemory;
use sheet_types::receipt::Sums;
use std::alloc::Global;
use uuid::Uuid;

/// A package: its letter, that of its parent, the number of the split that made it and what it
/// holds; and its receipts behind a colon.
pub(crate) fn sight_of(alloc: Global, words: &str) -> Result<Sight, OutOfMemory> {
    let (seen, entries) = words.split_once(':').unwrap_or((words, "none"));
    let [own, parent, loan, held, _, _] = points(seen);
    let (Some(own), Some(parent), Ok(loan)) = (
        package_byte(own),
        package_byte(parent),
        loan.parse::<u64>(),
    ) else {
        return Err(OutOfMemory);
    };
    let (item, link) = if held == "link" {
        ("none", "link")
    } else {
        (held, "none")
    };
    Ok(Sight {
        uuid: uuid(own, 0),
        parent: package(parent),
        loan,
        items: things(alloc, item)?,
        links: things(alloc, link)?,
        receipts: receipts(alloc, entries)?,
    })
}

fn sights(alloc: Global, words: &str) -> Result<Vec<Sight>, OutOfMemory> {
    let mut seen = Vec::new(alloc);
    for word in words.split(' ') {
        if !word.is_empty() {
            seen.push(sight_of(alloc, word)?)?;
        }
    }
    Ok(seen)
}

// Whether the ledger of a world is sound; whether custody, sums, loans, homes and merges are in
// order; and what the judge says.
fn tell_parts(alloc: Global, words: &str, told: &mut Told) -> Result<(), OutOfMemory> {
    let account = account_of(alloc, sights(alloc, words)?)?;
    let ledger = account.ledger.as_slice();
    let holders = account.holders.as_slice();
    told.sign(is_sound(alloc, uuid(ARCHIVE, 0), ledger)?);
    told.sign(holds_what_is_kept(alloc, ledger, holders)?);
    told.sign(sums_add_up(alloc, ledger, holders)?);
    told.sign(are_loans(alloc, ledger, &account.splits, holders)?);
    told.sign(are_at_home(alloc, ledger, holders)?);
    told.sign(account.together);
    told.sign(judge(alloc, sights(alloc, words)?)?);
    Ok(())
}

// The archive that is seen, and the numbers of the ledger in their order.
fn tell_ledger(account: &Account, told: &mut Told) {
    told.word(package_word(archive_of(account.holders.as_slice())));
    for receipt in account.ledger.as_slice() {
        told.worded(" ", &receipt.seq);
    }
}

// The splits that made a package: the number of each, and where its receipt is.
fn tell_lents(alloc: Global, seen: &[Sight], of: Uuid, told: &mut Told) -> Result<(), OutOfMemory> {
    let splits = splits_of(alloc, seen)?;
    for lent in lents_of(&splits, of) {
        told.worded("", &lent.seq);
        told.word(" in ");
        told.word(package_word(Some(lent.home)));
        told.word(";");
    }
    Ok(())
}

// The tiles, media, rows, links and bytes of a package.
fn tell_sums(sums: Option<Sums>, told: &mut Told) {
    match sums {
        Some(s) => told.numbers(&[s.tiles, s.media, s.rows, s.links, s.bytes]),
        None => told.word("-"),
    }
}

// Of the first package what it holds, or the number of its last receipt that names a package.
fn tell_first(
    alloc: Global,
    first: &Sight,
    asks: &str,
    of: Uuid,
    told: &mut Told,
) -> Result<(), OutOfMemory> {
    match asks {
        "sums" => tell_sums(sums_of(first), told),
        "ticket" => {
            let last = last_receipts(alloc, first.receipts.as_slice())?;
            told.value(&ticket_of(&last, of));
        }
        asks => told.unread(asks),
    }
    Ok(())
}

// The least item that no addition says, where the addition of the tile is all that there is.
fn tell_altered(alloc: Global, account: &Account, told: &mut Told) -> Result<(), OutOfMemory> {
    let ledger = receipts(alloc, "addition")?;
    let holders = account.holders.as_slice();
    told.word(package_word(least_altered(alloc, ledger.as_slice(), holders)?));
    Ok(())
}

fn tell_seen(
    alloc: Global,
    seen: &[Sight],
    asks: &str,
    told: &mut Told,
) -> Result<(), OutOfMemory> {
    let (asks, of) = asks.split_once('_').unwrap_or((asks, "-"));
    let of = uuid(package_byte(of).unwrap_or(0), 0);
    match (asks, seen.first()) {
        ("lents", _) => tell_lents(alloc, seen, of, told)?,
        (_, Some(first)) => tell_first(alloc, first, asks, of, told)?,
        (_, None) => told.unread("no package"),
    }
    Ok(())
}

/// What is asked of packages, and they.
pub(crate) fn world_of(alloc: Global, question: &str, told: &mut Told) -> Result<(), OutOfMemory> {
    let (asks, words) = cut(question);
    let seen = sights(alloc, words)?;
    match asks {
        "parts" => tell_parts(alloc, words, told)?,
        "judged" => told.answer(judge(alloc, seen)?),
        "ledger" => tell_ledger(&account_of(alloc, seen)?, told),
        "altered" => tell_altered(alloc, &account_of(alloc, seen)?, told)?,
        asks => tell_seen(alloc, seen.as_slice(), asks, told)?,
    }
    Ok(())
}

const WORLDS: Table = Table(
    22,
    "parts a.-.0.none:addition,split b.a.2.tile: => [+++++++]
# brought back through two, and at once
parts a.-.0.tile:addition,split,3.3.lent_on.b.c.tile,4.4.back_to_loan.c.b.tile,5.5.returned.b.a.tile => \
    [+++++++]
parts a.-.0.tile:addition,split,merge => [+++++++]
# one request twice
parts a.-.0.none:addition,2.1.lent.a.b.tile b.a.2.tile: => [-+++++-]
# another tile is held, and more bytes
parts a.-.0.none:addition,split b.a.2.other: => [+-++++-]
parts a.-.0.none:addition,split b.a.2.grown: => [++-+++-]
# a loan of another number, and one that was brought back
parts a.-.0.none:addition,split b.a.1.tile: => [+++-++-]
parts a.-.0.tile:addition,split,merge b.a.2.none: => [+++-++-]
# a receipt away from home
parts a.-.0.none:split b.a.2.tile:addition => [++++-+-]
# a merge past the loan
parts a.-.0.tile:addition,split,4.4.past_the_loan.c.a.tile b.a.2.none:3.3.lent_on.b.c.tile => [+++++--]
ledger a.-.0.none:split b.a.2.tile:addition => [a 1 2]
lents_b a.-.0.none:split b.a.2.tile:addition => [2 in a;]
lents_a a.-.0.none:split b.a.2.tile:addition => []
# no archive is seen
judged  => [no]
# what a package holds
sums a.-.0.grown: => [1;0;0;0;2;]
sums a.-.0.link: => [0;0;0;1;0;]
sums a.-.0.none: => [0;0;0;0;0;]
# the last receipt that names a package
ticket_a a.-.0.none:1.1.add.-.a.none,2.2.add.a.b.none,3.3.add.-.a.none => [3]
ticket_b a.-.0.none:1.1.add.-.a.none,2.2.add.a.b.none,3.3.add.-.a.none => [2]
ticket_c a.-.0.none:1.1.add.-.a.none,2.2.add.a.b.none,3.3.add.-.a.none => [0]
# an item that grew is altered
altered a.-.0.tile: a.-.0.tile: => [-]
altered a.-.0.tile: a.-.0.grown: => [tile]
",
);

#[test]
fn worlds_and_parts_that_are_broken(rt: HostRuntime) {
    assert_eq!(rt; wrong_of(rt.alloc(), Of::Worlds, WORLDS).wrong(), "");
}
