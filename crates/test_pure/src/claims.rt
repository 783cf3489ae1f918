//! An archive that added a tile and lent a package, and that package, told by hand: found, missing,
//! copied, brought back, in the wrong place, torn and altered. Stores are written as words.
ghost use Rattle.opening_faults.specs.Splits.{AreOpenSplits};

use crate::balances::sight_of;
use crate::receipts::{ARCHIVE, LOAN, line_of, package, package_word};
use crate::steps::{Of, Table, Told, cut, uuid, wrong_of};
use crate::values::text;
use opening_faults::archives::{has_no_archive, has_two_archives};
use opening_faults::claiming::is_passage;
use opening_faults::faults::RecoverFault;
use opening_faults::foreign::least_foreign;
use opening_faults::least::{least_copied, least_missing};
use opening_faults::reaching::reach;
use opening_faults::sights::{Sight, StoreClaim, StoreHead};
use opening_faults::splits::Reached;
use opening_faults::unfit::least_unfit;
use opening_numbers::numbers::{may_be_named, receipt_number};
use opening_verdict::judging::judge_all;
use opening_verdict::seen::StoreSeen;
use opening_verdict::verdict::Verdict;
use sheet_types::error::OutOfMemory;
use sheet_types::frame::Frame;
use std::alloc::Global;

const A: &str = "a0000000-0000-4000-8000-000000000000";

const B: &str = "b0000000-0000-4000-8000-000000000000";

const SHEET: Frame = Frame {
    srs_id: 0,
    min_x: 0,
    min_y: 0,
    max_x: 1024,
    max_y: 1024,
    tile_width: 1,
    tile_height: 1,
    first_zoom: 0,
    levels: 1,
    matrix_width: 1,
    matrix_height: 1,
};

fn claim(
    alloc: Global,
    seq: i64,
    line: &str,
    source: &str,
    target: &str,
) -> Result<StoreClaim, OutOfMemory> {
    Ok(StoreClaim {
        seq,
        line: text(alloc, line_of(line))?,
        source: text(alloc, source)?,
        target: text(alloc, target)?,
    })
}

// What an archive claims that added a tile, lent a package and took it back, up to this number.
fn claims(alloc: Global, last: i64) -> Result<Vec<StoreClaim>, OutOfMemory> {
    let mut list = Vec::new(alloc);
    for (seq, line, source, target) in [
        (1, "added", "", A),
        (2, "lent", A, B),
        (3, "returned", B, A),
    ] {
        if seq <= last {
            list.push(claim(alloc, seq, line, source, target)?)?;
        }
    }
    Ok(list)
}

// An archive, or the package that it lent, at this depth; and what it claims.
fn store_of(depth: u64, claims: Vec<StoreClaim>) -> Sight {
    let is_loan = depth > 0;
    let head = StoreHead {
        uuid: uuid(if is_loan { LOAN } else { ARCHIVE }, 0),
        parent: package(if is_loan { ARCHIVE } else { 0 }),
        depth,
        loan: if is_loan { 2 } else { 0 },
    };
    Sight {
        head: Some(head),
        claims,
        frame: SHEET,
    }
}

// An archive that lent, or that took back too; a package that was lent, at its depth or one below.
fn store(alloc: Global, word: &str) -> Result<Sight, OutOfMemory> {
    let (depth, last) = match word {
        "lender" => (0, 2),
        "returned" => (0, 3),
        "deep" => (2, 0),
        _ => (1, 0),
    };
    Ok(store_of(depth, claims(alloc, last)?))
}

fn stores(alloc: Global, words: &str) -> Result<Vec<Sight>, OutOfMemory> {
    let mut list = Vec::new(alloc);
    for word in words.split(' ') {
        list.push(store(alloc, word)?)?;
    }
    Ok(list)
}

// Which are live, how many splits are open, and the least package of a fault.
fn tell_reached(
    alloc: Global,
    seen: &[Sight],
    reached: &Reached,
    asks: &str,
    told: &mut Told,
) -> Result<(), OutOfMemory>
    requires { AreOpenSplits seen.now reached.now.splits.items }
{
    let found = match asks {
        "missing" => least_missing(alloc, seen, &reached.splits)?,
        "copied" => least_copied(alloc, seen, &reached.splits)?,
        "foreign" => least_foreign(alloc, seen, &reached.splits)?,
        "splits" => {
            told.value(&reached.splits.len());
            return Ok(());
        }
        _ => {
            for is_live in reached.live.iter() {
                told.sign(*is_live);
            }
            return Ok(());
        }
    };
    told.word(package_word(found));
    Ok(())
}

// The number of the receipt that names what a fault is of: the package that was lent, or the tile that was added.
fn tell_number(
    alloc: Global,
    seen: &[Sight],
    asks: &str,
    told: &mut Told,
) -> Result<(), OutOfMemory> {
    let (loan, tile) = (uuid(LOAN, 0), uuid(0, 1));
    let fault = match asks {
        "number_missing" => RecoverFault::MissingPackage(loan),
        "number_copied" => RecoverFault::TwoCopies(loan),
        "number_foreign" => RecoverFault::ForeignFrame(loan),
        "number_altered" => RecoverFault::Altered(tile),
        _ => RecoverFault::Dangling(loan),
    };
    if !may_be_named(fault) {
        told.word("no receipt");
        return Ok(());
    }
    told.some(&receipt_number(alloc, seen, fault)?);
    Ok(())
}

// Which claims of the stores are of a split or of a merge.
fn tell_passages(seen: &[Sight], told: &mut Told) {
    for sight in seen {
        for claim in sight.claims.iter() {
            told.sign(is_passage(claim));
        }
    }
}

// Of two live stores, or of a first that alone is, the least that is not fit, where the first is
// fit and the second is not.
fn tell_claims(
    alloc: Global,
    seen: &[Sight],
    asks: &str,
    told: &mut Told,
) -> Result<(), OutOfMemory> {
    let fit = [true, false];
    match asks {
        "has_no_archive" => told.answer(has_no_archive(seen)),
        "has_two_archives" => told.answer(has_two_archives(seen)),
        "unfit" => told.word(package_word(least_unfit(alloc, seen, &[true, true], &fit)?)),
        "unfit_of_one" => told.word(package_word(least_unfit(alloc, seen, &[true, false], &fit)?)),
        "passages" => tell_passages(seen, told),
        "missing" | "copied" | "foreign" | "splits" | "live" => {
            let reached = reach(alloc, seen)?;
            return tell_reached(alloc, seen, &reached, asks, told);
        }
        "number_missing"
        | "number_copied"
        | "number_foreign"
        | "number_altered"
        | "number_dangling" => {
            return tell_number(alloc, seen, asks, told);
        }
        asks => told.unread(asks),
    }
    Ok(())
}

/// What is asked of stores, and they.
pub(crate) fn claims_of(alloc: Global, question: &str, told: &mut Told) -> Result<(), OutOfMemory> {
    let (asks, words) = cut(question);
    tell_claims(alloc, stores(alloc, words)?.as_slice(), asks, told)
}

const CLAIMS: Table = Table(
    28,
    "live loan lender => [++]
splits loan lender => [1]
missing loan lender => [-]
copied loan lender => [-]
foreign loan lender => [-]
has_no_archive loan lender => [no]
has_two_archives loan lender => [no]
missing lender => [b]
copied lender loan loan => [b]
live returned loan => [+-]
splits returned loan => [0]
foreign lender deep => [b]
has_no_archive loan => [yes]
has_two_archives loan lender lender => [yes]
unfit lender loan => [b]
unfit_of_one lender loan => [-]
number_missing lender => [2]
number_missing lender loan => [-]
number_missing returned => [-]
number_copied lender loan loan => [2]
number_copied lender loan => [-]
number_foreign lender deep => [2]
number_foreign lender => [-]
number_altered loan lender => [1]
number_altered loan => [-]
number_dangling lender loan => [no receipt]
passages loan returned => [-++]
passages loan => []
",
);

#[test]
fn what_stores_claim(rt: HostRuntime) {
    assert_eq!(rt; wrong_of(rt.alloc(), Of::Claims, CLAIMS).wrong(), "");
}

// How deep a store is, and what it holds with its receipts: an archive that has a tile of one byte,
// none, another, or one of two bytes, and whose second receipt lent a package with nothing in it;
// or that package, at its depth or one below.
fn held_by(word: &str) -> (u64, &'static str) {
    match word {
        "archive" => (0, "a.-.0.tile:addition,2.2.lent.a.b.none"),
        "untied" => (0, "a.-.0.grown:addition,2.2.lent.a.b.none"),
        "emptied" => (0, "a.-.0.none:addition,2.2.lent.a.b.none"),
        "altered" => (0, "a.-.0.altered:addition,2.2.lent.a.b.none"),
        "deep" | "torn" => (2, "b.a.2.none:"),
        _ => (1, "b.a.2.none:"),
    }
}

// Such a store; one is not tied, one neither formed nor tied, and a stray has no head and is not formed.
fn store_seen(alloc: Global, word: &str) -> Result<StoreSeen, OutOfMemory> {
    let (depth, words) = held_by(word);
    let held = sight_of(alloc, words)?;
    let mut sight = store_of(depth, claims(alloc, if depth == 0 { 2 } else { 0 })?);
    if word == "stray" {
        sight.head = None;
    }
    Ok(StoreSeen {
        sight,
        is_formed: word != "torn" && word != "stray",
        is_tied: word != "untied" && word != "torn",
        held,
    })
}

// How many receipts there are; and of each store that is live its package, the tiles and bytes of it, and its ticket.
fn tell_verdict(verdict: &Verdict, told: &mut Told) {
    told.value(&verdict.count);
    told.word(":");
    for kept in verdict.kept.iter() {
        told.word(" ");
        if let Some(live) = kept {
            told.word(package_word(Some(live.head.uuid)));
            told.worded(" ", &live.sums.tiles);
            told.worded(" ", &live.sums.bytes);
            told.worded(" ", &live.ticket);
        } else {
            told.word("-");
        }
        told.word(";");
    }
}

// The name of a fault, and what it tells.
fn tell_fault(fault: RecoverFault, told: &mut Told) {
    let of = match fault {
        RecoverFault::NotAPackage(id)
        | RecoverFault::TwoCopies(id)
        | RecoverFault::MissingPackage(id)
        | RecoverFault::ForeignFrame(id)
        | RecoverFault::Dangling(id)
        | RecoverFault::Altered(id) => Some(id),
        _ => None,
    };
    told.value(&fault);
    told.word(" ");
    told.word(package_word(of));
}

/// What these stores come to.
pub(crate) fn verdict_of(alloc: Global, words: &str, told: &mut Told) -> Result<(), OutOfMemory> {
    let mut seen = Vec::new(alloc);
    for word in words.split(' ') {
        seen.push(store_seen(alloc, word)?)?;
    }
    match judge_all(alloc, seen) {
        Ok(verdict) => tell_verdict(&verdict, told),
        Err(fault) => tell_fault(fault, told),
    }
    Ok(())
}

const JUDGED: Table = Table(
    10,
    "loan stray archive => [2: b 0 0 2; -; a 1 1 2;]
loan => [NoArchive -]
archive archive => [TwoArchives -]
# what is no package is told before what is not tied and too deep
archive torn => [NotAPackage b]
archive => [MissingPackage b]
archive loan loan => [TwoCopies b]
archive deep => [ForeignFrame b]
loan untied => [Dangling a]
loan emptied => [OutOfAccount -]
loan altered => [Altered tile]
",
);

#[test]
fn what_stores_come_to(rt: HostRuntime) {
    assert_eq!(rt; wrong_of(rt.alloc(), Of::Verdicts, JUDGED).wrong(), "");
}
