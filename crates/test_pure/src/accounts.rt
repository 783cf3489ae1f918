//! A tile that is added, lent and brought back; and ledgers each of which breaks one rule.

use crate::receipts::{ARCHIVE, LOAN, line_of, package_word, receipts, tile};
use crate::steps::{Of, Table, Told, cut, in_brackets, uuid, wrong_of};
use sheet_ledger::accounting::account;
use sheet_ledger::agreeing::agree;
use sheet_ledger::entering::{are_entered, is_entered};
use sheet_ledger::entries::{LineEntry, read_line};
use sheet_ledger::flows::{Flow, flow_of, flows};
use sheet_ledger::forms::{are_counted, are_in_order, have_things};
use sheet_ledger::loans::{is_add, is_merge, is_open, is_split, last_merges, open_loans};
use sheet_ledger::moving::start_where_they_ended;
use sheet_ledger::newness::{add_what_is_new, lend_new_packages};
use sheet_ledger::numbering::{are_numbered, have_new_requests};
use sheet_ledger::places::{place_of, places};
use sheet_ledger::soundness::is_sound;
use sheet_types::error::OutOfMemory;
use sheet_types::receipt::Receipt;
use std::alloc::Global;

fn tell_entry(entry: &LineEntry, told: &mut Told) {
    match entry {
        LineEntry::Add { kind, size, .. } => {
            told.worded("add ", kind);
            told.worded(" ", size);
        }
        LineEntry::Delete { .. } => told.word("delete"),
        LineEntry::Link { mapping, .. } => told.worded("link ", mapping),
        LineEntry::Unlink { mapping, .. } => told.worded("unlink ", mapping),
        LineEntry::Split { mode, .. } => told.worded("split ", mode),
        LineEntry::Merge { ticket, .. } => told.worded("merge ", ticket),
    }
    for end in [entry.source(), entry.target(), Some(entry.stands_in())] {
        told.word(" ");
        told.word(package_word(end));
    }
}

/// A line in brackets, or its name, as it is read.
pub(crate) fn line_told(question: &str, told: &mut Told) {
    let Some(text) = in_brackets(question) else {
        return told.unread(question);
    };
    match read_line(line_of(text)) {
        Some(entry) => tell_entry(&entry, told),
        None => told.word("-"),
    }
}

// What stands in each line, and the package that it comes from, goes to and stands in.
const LINES: Table = Table(
    14,
    "[added] => [add tile 1 - a a]
[deleted] => [delete a - a]
[linked] => [link rows_media - a a]
[tile_linked] => [link rows_tiles - a a]
[tile_unlinked] => [unlink rows_tiles a - a]
[lent] => [split strict a b a]
[returned] => [merge 2 b a a]
[] => [-]
[delete] => [-]
[delete a0000000-0000-4000-8000-000000000000 00000000-0000-4000-8000-000000000001 ] => [-]
[delete A0000000-0000-4000-8000-000000000000 00000000-0000-4000-8000-000000000001] => [-]
[merge b0000000-0000-4000-8000-000000000000 a0000000-0000-4000-8000-000000000000 02] => [-]
[split a0000000-0000-4000-8000-000000000000 b0000000-0000-4000-8000-000000000000 loose 1 0 0 0 0] => [-]
[add a0000000-0000-4000-8000-000000000000 00000000-0000-4000-8000-000000000001 tile -1 \
    c20eb71e63f0260834960dcfbffbdf9e96eadc0b8946db35a34b9382dc301848] => [-]
",
);

#[test]
fn lines_are_read(rt: HostRuntime) {
    assert_eq!(rt; wrong_of(rt.alloc(), Of::Lines, LINES).wrong(), "");
}

// A part of the rule for ledgers, or all of it.
fn tell_part(
    alloc: Global,
    part: &str,
    all: &[Receipt],
    told: &mut Told,
) -> Result<(), OutOfMemory> {
    match part {
        "sound" => told.answer(is_sound(alloc, uuid(ARCHIVE, 0), all)?),
        "entered" => told.answer(are_entered(all)),
        "things" => told.answer(have_things(all)),
        "in_order" => told.answer(are_in_order(all)),
        "counted" => told.answer(are_counted(all)),
        "numbered" => told.answer(are_numbered(all)),
        "new_requests" => told.answer(have_new_requests(alloc, all)?),
        "start_where_ended" => told.answer(start_where_they_ended(alloc, all)?),
        "add_new" => told.answer(add_what_is_new(alloc, all)?),
        "lend_new" => told.answer(lend_new_packages(alloc, uuid(ARCHIVE, 0), all)?),
        "agree" => told.answer(agree(alloc, all)?),
        part => told.unread(part),
    }
    Ok(())
}

// The loans that are open, each with its number.
fn tell_loans(alloc: Global, all: &[Receipt], told: &mut Told) -> Result<(), OutOfMemory> {
    let loans = open_loans(alloc, all)?;
    for (loan, seq) in loans.iter() {
        told.word(package_word(Some(*loan)));
        told.worded(" ", seq);
        told.word(";");
    }
    Ok(())
}

// The tiles, links and bytes that came to a package, and that left it.
fn tell_flow(flow: Flow, told: &mut Told) {
    for sums in [flow.came, flow.left] {
        told.numbers(&[sums.tiles, sums.links, sums.bytes]);
    }
}

fn tell_account(
    alloc: Global,
    all: &[Receipt],
    asks: &str,
    told: &mut Told,
) -> Result<(), OutOfMemory> {
    let found = account(alloc, all)?;
    match asks {
        "account_flow_a" => tell_flow(flow_of(&found.flows, uuid(ARCHIVE, 0)), told),
        "account_flow_b" => tell_flow(flow_of(&found.flows, uuid(LOAN, 0)), told),
        _ => told.word(package_word(place_of(&found.places, &tile(1, 1)))),
    }
    Ok(())
}

// Where the tile is, what came to the archive and left it, and whether a split of this number into a package is open.
fn tell_moves(
    alloc: Global,
    all: &[Receipt],
    asks: &str,
    told: &mut Told,
) -> Result<(), OutOfMemory> {
    match asks {
        "place" => told.word(package_word(place_of(&places(alloc, all)?, &tile(1, 1)))),
        "flow_a" => tell_flow(flow_of(&flows(alloc, all)?, uuid(ARCHIVE, 0)), told),
        "open_b_2" => told.answer(is_open(&last_merges(alloc, all)?, uuid(LOAN, 0), 2)),
        "open_b_3" => told.answer(is_open(&last_merges(alloc, all)?, uuid(LOAN, 0), 3)),
        _ => told.answer(is_open(&last_merges(alloc, all)?, uuid(ARCHIVE, 0), 0)),
    }
    Ok(())
}

// What the last receipt does, and whether it has its line.
fn tell_last(last: &Receipt, told: &mut Told) {
    if !is_entered(last) {
        told.word("not entered");
    }
    for (is_so, word) in [
        (is_add(last), "add"),
        (is_split(last), "split"),
        (is_merge(last), "merge"),
    ] {
        if is_so {
            told.word(word);
        }
    }
}

// Of the clone of the first receipt its number and its line, and whether it moved the same.
fn tell_clone(first: &Receipt, told: &mut Told) -> Result<(), OutOfMemory> {
    let copy = first.try_clone()?;
    let is_same = copy.items.as_slice() == first.items.as_slice();
    told.value(&copy.seq);
    told.word(" ");
    told.word(copy.line.as_str());
    told.word(if is_same {
        " the same"
    } else {
        " other things"
    });
    Ok(())
}

fn tell_ledger(
    alloc: Global,
    all: &[Receipt],
    asks: &str,
    told: &mut Told,
) -> Result<(), OutOfMemory> {
    match (asks, all.first(), all.last()) {
        ("clone", Some(first), _) => tell_clone(first, told)?,
        ("last", _, Some(last)) => tell_last(last, told),
        ("loans", ..) => tell_loans(alloc, all, told)?,
        ("account_place" | "account_flow_a" | "account_flow_b", ..) => {
            tell_account(alloc, all, asks, told)?;
        }
        ("place" | "flow_a" | "open_b_2" | "open_b_3" | "open_a_0", ..) => {
            tell_moves(alloc, all, asks, told)?;
        }
        _ => tell_part(alloc, asks, all, told)?,
    }
    Ok(())
}

/// What is asked of a ledger, and its receipts.
pub(crate) fn ledger_of(alloc: Global, question: &str, told: &mut Told) -> Result<(), OutOfMemory> {
    let (asks, words) = cut(question);
    tell_ledger(alloc, receipts(alloc, words)?.as_slice(), asks, told)
}

const LEDGERS: Table = Table(
    36,
    "# a tile that is lent and brought back
sound addition,split,merge => [yes]
entered addition,split,merge => [yes]
things addition,split,merge => [yes]
in_order addition,split,merge => [yes]
counted addition,split,merge => [yes]
numbered addition,split,merge => [yes]
new_requests addition,split,merge => [yes]
start_where_ended addition,split,merge => [yes]
add_new addition,split,merge => [yes]
lend_new addition,split,merge => [yes]
agree addition,split,merge => [yes]
place addition,split,merge => [a]
account_place addition,split,merge => [a]
loans addition,split,merge => []
open_b_2 addition,split,merge => [no]
open_b_3 addition,split,merge => [yes]
open_a_0 addition,split,merge => [yes]
# it came twice and left once, and the other way round
account_flow_a addition,split,merge => [2;0;2;1;0;1;]
account_flow_b addition,split,merge => [1;0;1;1;0;1;]
last addition,split,merge => [merge]
# while it is lent
place addition,split => [b]
loans addition,split => [b 2;]
last addition,split => [split]
account_flow_b addition,split => [1;0;1;0;0;0;]
# links of a row to a tile, of which the last is not what its line says
sound 1.1.tile_linked.-.a.link => [yes]
flow_a 1.1.tile_linked.-.a.link => [0;1;0;0;0;0;]
sound 1.1.tile_linked.-.a.link,2.2.tile_unlinked.a.-.link => [yes]
sound 1.1.tile_linked.-.a.link,2.2.tile_unlinked.a.-.link,3.3.linked.-.a.link => [no]
# in the place of the merge: from the archive, misnumbered, of another size, without its line, to another \
    end, added and lent again
sound addition,split,3.3.deleted.a.-.tile => [no]
sound addition,split,4.4.returned.b.a.tile => [no]
sound addition,split,3.3.returned.b.a.grown => [no]
sound addition,split,3.3.merge.b.a.tile => [no]
sound addition,split,3.3.returned.b.-.tile => [no]
sound addition,split,3.3.added.-.a.tile => [no]
sound addition,split,3.3.lent.a.b.tile => [no]
# its copy is the same
clone 1.1.line.-.a.tile => [1 line the same]
",
);

#[test]
fn ledgers(rt: HostRuntime) {
    assert_eq!(rt; wrong_of(rt.alloc(), Of::Ledgers, LEDGERS).wrong(), "");
}
