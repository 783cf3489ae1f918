//! The page of a folder that does not open: the fault, what is known of it, what to do, and what was asked before it.
ghost use Rattle.std.specs.Prelude.{◌≡◌, ◌++◌, IfOk, option_map, string_bytes};
ghost use Rattle.view_fault.specs.Pages.{fault_meaning, fault_name, fault_page, fault_remedy, page_text, place_of};
ghost use Rattle.view_fault.specs.Pages.{row_class, row_text, rows_text, state_text};

use crate::words::{DO_HEAD, END, FAULTS_HEAD, VERDICT};
use command_faults::texts::fault_text;
use opening_faults::faults::RecoverFault;
use std::alloc::{AllocError, Global};
use view_report::escaping::put_escaped;
use view_report::pieces::put;
use view_report::style::STYLE;
use view_report::words::HEAD;

/// The place of a fault in the order of the nine; none of want of memory and of a failing store.
fn place_of(fault: &RecoverFault) -> Option<u64>
    ensures { result ≡ place_of fault.now }
{
    match fault {
        RecoverFault::NoArchive => Some(0),
        RecoverFault::TwoArchives => Some(1),
        RecoverFault::NotAPackage(_) => Some(2),
        RecoverFault::TwoCopies(_) => Some(3),
        RecoverFault::MissingPackage(_) => Some(4),
        RecoverFault::ForeignFrame(_) => Some(5),
        RecoverFault::Dangling(_) => Some(6),
        RecoverFault::OutOfAccount => Some(7),
        RecoverFault::Altered(_) => Some(8),
        RecoverFault::OutOfMemory | RecoverFault::StoreFault => None,
    }
}

/// The name of the fault at a place.
fn fault_name(number: u64) -> &'static str
    ensures { result.now ≡ fault_name number }
{
    match number {
        0 => "NoArchive",
        1 => "TwoArchives",
        2 => "NotAPackage",
        3 => "TwoCopies",
        4 => "MissingPackage",
        5 => "ForeignFrame",
        6 => "Dangling",
        7 => "OutOfAccount",
        _ => "Altered",
    }
}

/// What it says.
fn fault_meaning(number: u64) -> &'static str
    ensures { result.now ≡ fault_meaning number }
{
    match number {
        0 => "No file says that it is the archive's.",
        1 => "Two files say that they are the archive's.",
        2 => "A live package lacks a table of its form, or has a value out of its range.",
        3 => "Two files are the same loan.",
        4 => "A loan is out and its file is not there.",
        5 => "A loan has another frame than the archive, or does not fit its lender.",
        6 => "A row has no identity, or a link has no row.",
        7 => "The receipts do not add up to what the packages hold.",
        _ => "An item is not what its receipt says: its bytes were changed.",
    }
}

/// What to do.
fn fault_remedy(number: u64) -> &'static str
    ensures { result.now ≡ fault_remedy number }
{
    match number {
        0 => {
            "The archive's file is gone, empty or renamed: put it back under its UUID, or restore the folder."
        }
        1 => {
            "One is a copy, or another register's archive: move the one that does not belong out of the folder."
        }
        2 => "Its file is damaged, or another program has written to it: restore the folder.",
        3 => "Move the older copy out of the folder.",
        4 => "Put the file back, or restore the folder.",
        5 => "The file belongs to another register: restore the folder.",
        6 => "Another program has written to the file: restore the folder.",
        7 => "Often the files are of two days: restore the whole folder of one day.",
        _ => "Keep the file as evidence, and restore the folder.",
    }
}

/// What is known of a fault at a place, where another was found.
fn state_text(number: u64, found: u64) -> &'static str
    ensures { result.now ≡ state_text number found }
{
    if number < found {
        "<td class=\"yes\">&#10003; not so</td>"
    } else if number == found {
        "<td class=\"no\">&#10007; found</td>"
    } else {
        "<td class=\"q\">not asked</td>"
    }
}

/// The class of its row.
fn row_class(number: u64, found: u64) -> &'static str
    ensures { result.now ≡ row_class number found }
{
    if number == found {
        " class=\"hit\""
    } else {
        ""
    }
}

/// Puts the row of a fault.
fn put_row(text: &mut String, found: u64, number: u64) -> Result<(), AllocError>
    ensures { IfOk result (λ _. string_bytes text.new ≡ string_bytes text.old ++ row_text found number) }
{
    put(text, "<tr")?;
    put(text, row_class(number, found))?;
    put(text, "><th scope=\"row\">")?;
    put(text, fault_name(number))?;
    put(text, "</th><td>")?;
    put(text, fault_meaning(number))?;
    put(text, "</td>")?;
    put(text, state_text(number, found))?;
    put(text, "</tr>\n")?;
    Ok(())
}

/// Puts the rows of the first so many faults.
fn put_rows(text: &mut String, found: u64, total: u64) -> Result<(), AllocError>
    ensures { IfOk result (λ _. string_bytes text.new ≡ string_bytes text.old ++ rows_text found total) }
{
    for number in 0..total {
        put_row(text, found, number)?;
    }
    Ok(())
}

/// Puts the page of the fault at a place.
fn put_page(text: &mut String, found: u64, known: &str) -> Result<(), AllocError>
    ensures { IfOk result (λ _. string_bytes text.new ≡ string_bytes text.old ++ page_text found known.now) }
{
    put(text, HEAD)?;
    put(text, "Register not in order")?;
    put(text, STYLE)?;
    put(text, VERDICT)?;
    put(text, fault_name(found))?;
    put(text, "</h2>\n<p>")?;
    put(text, fault_meaning(found))?;
    put(
        text,
        "</p>\n<ul class=\"facts\">\n<li class=\"big\"><b>Where</b> ",
    )?;
    put_escaped(text, known)?;
    put(text, DO_HEAD)?;
    put(text, fault_remedy(found))?;
    put(text, FAULTS_HEAD)?;
    put_rows(text, found, 9)?;
    put(text, END)?;
    Ok(())
}

/// The page of a fault, if it is one of the nine.
fn page_of(alloc: Global, fault: &RecoverFault) -> Result<Option<String>, AllocError>
    ensures { IfOk result (λ found. option_map string_bytes found ≡ fault_page fault.now) }
{
    let Some(found) = place_of(fault) else {
        return Ok(None);
    };
    let known = fault_text(alloc, *fault)?;
    let mut text = String::new(alloc);
    put_page(&mut text, found, known.as_str())?;
    Ok(Some(text))
}

/// The page of a fault, if it is one of the nine by which stores stand for no world: one file of
/// HTML 5 that needs nothing else.
///
/// # Errors
///
/// Want of memory.
pub fn fault_page(alloc: Global, fault: RecoverFault) -> Result<Option<String>, AllocError>
    ensures { IfOk result (λ found. option_map string_bytes found ≡ fault_page fault) }
{
    page_of(alloc, &fault)
}
