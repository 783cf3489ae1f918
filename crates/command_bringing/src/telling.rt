//! What is printed of a file that is refused, and of a list in short.
ghost use Rattle.std.specs.Prelude.{◌≡◌, ◌++◌, IfOk, codes, count_by, decimal, string_bytes};
ghost use Rattle.command_bringing.specs.Telling.{is_add, is_delete, is_link, is_unlink, refusal_text, refused};
ghost use Rattle.command_bringing.specs.Telling.{summary_text, taken_words};

use command_field::asking::Answer;
use command_field::freedom::Taken;
use sheet_types::command::{Command, Request};
use sheet_types::error::OutOfMemory;
use std::alloc::{AllocError, Global};

/// The line `refused: ` and what is taken.
fn taken_text(alloc: Global, taken: Taken) -> Result<String, OutOfMemory>
    ensures { IfOk result (λ text. string_bytes text ≡ refused (taken_words taken)) }
{
    match taken {
        Taken::Identity(id) => Ok(format!(in alloc; "refused: identity {id}\n")?),
        Taken::Request(id) => Ok(format!(in alloc; "refused: request {id}\n")?),
        Taken::TooMany => Ok("refused: too many\n".to_string(alloc)?),
    }
}

/// The line `refused: ` and what is refused; behind it the lines of records.
///
/// # Errors
///
/// Want of memory.
pub(crate) fn refusal_text(alloc: Global, answer: &Answer) -> Result<String, OutOfMemory>
    ensures { IfOk result (λ text. string_bytes text ≡ refusal_text answer.now) }
{
    let text = match answer {
        Answer::Asked(_) => "",
        Answer::NoSuchPackage => "refused: no such package\n",
        Answer::NoList => "refused: list\n",
        Answer::OtherPackage => "refused: package\n",
        Answer::OtherSystem => "refused: system\n",
        Answer::OtherFrame => "refused: frame\n",
        Answer::TwoAlike => "refused: identity\n",
        Answer::Stale(ticket) => return Ok(format!(in alloc; "refused: stale {ticket}\n")?),
        Answer::Items(lines) => return Ok(format!(in alloc; "refused: items\n{lines}")?),
        Answer::NotFree(taken) => return taken_text(alloc, *taken),
    };
    Ok(text.to_string(alloc)?)
}

/// How many requests end links.
fn unlinks_in(requests: &[Request]) -> usize
    ensures { result ≡ count_by is_unlink requests.now }
{
    requests
        .iter()
        .filter(|request| matches!(request.command, Command::Unlink { .. }))
        .count()
}

/// How many delete items.
fn deletes_in(requests: &[Request]) -> usize
    ensures { result ≡ count_by is_delete requests.now }
{
    requests
        .iter()
        .filter(|request| matches!(request.command, Command::Delete { .. }))
        .count()
}

/// How many add items.
fn adds_in(requests: &[Request]) -> usize
    ensures { result ≡ count_by is_add requests.now }
{
    requests
        .iter()
        .filter(|request| matches!(request.command, Command::Add { .. }))
        .count()
}

/// How many link items.
fn links_in(requests: &[Request]) -> usize
    ensures { result ≡ count_by is_link requests.now }
{
    requests
        .iter()
        .filter(|request| matches!(request.command, Command::Link { .. }))
        .count()
}

/// So many of each part, on a line.
fn parts_text(
    alloc: Global,
    unlinks: usize,
    deletes: usize,
    adds: usize,
    links: usize,
) -> Result<String, AllocError>
    ensures { IfOk result (λ text. string_bytes text ≡ decimal unlinks
        ++ (codes " unlinks, " ++ (decimal deletes ++ (codes " deletes, "
        ++ (decimal adds ++ (codes " adds, " ++ (decimal links ++ codes " links\n"))))))) }
{
    format!(in alloc; "{unlinks} unlinks, {deletes} deletes, {adds} adds, {links} links\n")
}

/// A list of requests in short: how many of each part there are, on a line.
///
/// # Errors
///
/// Want of memory.
pub(crate) fn summary_text(alloc: Global, requests: &[Request]) -> Result<String, OutOfMemory>
    ensures { IfOk result (λ text. string_bytes text ≡ summary_text requests.now) }
{
    let unlinks = unlinks_in(requests);
    let deletes = deletes_in(requests);
    let adds = adds_in(requests);
    let links = links_in(requests);
    let text = parts_text(alloc, unlinks, deletes, adds, links)?;
    Ok(text)
}

/// What it means that something is taken.
fn note_of_taken(taken: Taken) -> &'static str {
    match taken {
        Taken::Identity(_) => {
            "a new item would get the identity of an item that is or was there. Nothing was changed. Make some other change of the package, export it again, and edit that file"
        }
        Taken::Request(_) => {
            "a request of the list came before, and would not be carried out again. Nothing was changed. Make some other change of the package, export it again, and edit that file"
        }
        Taken::TooMany => {
            "a limit would be passed: 1,000,000 items of a kind or 4,000,000 links of a package, 256 packages, or 1,000,000,000 receipts. Nothing was changed"
        }
    }
}

/// What a refusal means, in plain words for standard error; empty where there is none.
pub(crate) fn note_of(answer: &Answer) -> &'static str {
    match answer {
        Answer::Asked(_) => "",
        Answer::NoSuchPackage => {
            "no such package is in the register now. If it is a loan that came home, lend and export again, and carry the edits over"
        }
        Answer::NoList => {
            "the list of what the file holds is not whole. Make it again by: sheetdesk holds | sqlite3 FILE"
        }
        Answer::OtherPackage => {
            "the file was exported from another package: bring it to that one. Or another program made it: then it needs --more"
        }
        Answer::Stale(_) => {
            "the package has changed since the file was exported; the number is its last receipt. Export it again, and edit that file"
        }
        Answer::OtherSystem =>
            "the points of the file have not the reference system of the archive",
        Answer::OtherFrame => "the tiles of the file do not lie in the grid of the archive",
        Answer::Items(_) => {
            "the package cannot hold these records of the file. Each line has a kind, a number and a reason:
  data   a tile or a medium is empty, or over 1,048,576 bytes
  place  the archive has no such zoom, column or row
  text   a label has a line break or over 200 bytes, or a content type is none
  code   a code is no whole number from 0 to 999,999
  point  a point lies outside the archive; it may be in degrees
  number a mark or a medium got the number of another one
  twice  two tiles lie at one place
  taken  the package has another tile at this place
  geometry, system, label, pyramid, corner, pixels, zooms, tiles, doubling: see FORMATS.md
Mend or delete these records in the file, and bring it again. Nothing was changed"
        }
        Answer::TwoAlike => "two new items would get one identity",
        Answer::NotFree(taken) => note_of_taken(*taken),
    }
}
