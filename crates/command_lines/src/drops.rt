//! The lines of an item that is dropped: its requests, what came of them, or the links for which it stays.
ghost use Rattle.std.specs.Prelude.{◌≡◌, ◌++◌, ◌∷◌, [], IfOk, string_bytes};
ghost use Rattle.command_lines.specs.Drops.{linked_line, linked_lines, linked_text, outcome_text, outcomes_text};
ghost use Rattle.command_lines.specs.Drops.{request_line, requests_text};

use command_replies::receipts::reply_text;
use command_replies::requests::request_text;
use desk_replies::bodies::refusal_body;
use sheet_types::command::{Relation, Request};
use sheet_types::error::OutOfMemory;
use sheet_types::receipt::Receipt;
use sheet_types::refusal::Refusal;
use std::alloc::Global;

/// A link, as a line.
fn linked_line(alloc: Global, link: &Relation) -> Result<String, OutOfMemory>
    ensures { IfOk result (λ line. string_bytes line ≡ linked_line link.now) }
{
    let base = link.base;
    let other = link.other;
    Ok(format!(in alloc; "linked {base} {other}\n")?)
}

/// A line for each link.
fn linked_lines(alloc: Global, links: &[Relation]) -> Result<String, OutOfMemory>
    ensures { IfOk result (λ text. string_bytes text ≡ linked_lines links.now) }
{
    let mut text = String::new(alloc);
    for link in links {
        let line = linked_line(alloc, link)?;
        text.push_str(line.as_str())?;
    }
    Ok(text)
}

/// The links of an item, a line each, and that it stays for them.
///
/// # Errors
///
/// Want of memory.
pub fn linked_text(alloc: Global, links: &[Relation]) -> Result<String, OutOfMemory>
    ensures { IfOk result (λ text. string_bytes text ≡ linked_text links.now) }
{
    let mut text = linked_lines(alloc, links)?;
    text.push_str("refused: linked\n")?;
    Ok(text)
}

/// Puts a request as JSON behind a text, as a line.
fn put_request(alloc: Global, text: &mut String, request: &Request) -> Result<(), OutOfMemory>
    ensures { IfOk result (λ _. string_bytes text.new ≡ string_bytes text.old ++ request_line request.now) }
{
    let line = request_text(alloc, request)?;
    text.push_str(line.as_str())?;
    text.push_str("\n")?;
    Ok(())
}

/// Requests as JSON, a line each.
///
/// # Errors
///
/// Want of memory.
pub fn requests_text(alloc: Global, requests: &[Request]) -> Result<String, OutOfMemory>
    ensures { IfOk result (λ text. string_bytes text ≡ requests_text requests.now) }
{
    let mut text = String::new(alloc);
    for request in requests {
        put_request(alloc, &mut text, request)?;
    }
    Ok(text)
}

/// What came of a request, without the end of the last line: what it did and its receipt, or the refusal as JSON.
fn outcome_body(
    alloc: Global,
    request: &Request,
    reply: &Result<Receipt, Refusal>,
) -> Result<String, OutOfMemory>
    ensures { IfOk result (λ text. string_bytes text ≡ outcome_text request.now reply.now) }
{
    match reply {
        Ok(receipt) => Ok(reply_text(alloc, &request.command, receipt)?),
        Err(why) => refusal_body(alloc, why),
    }
}

/// Puts what came of a request behind a text.
fn put_outcome(
    alloc: Global,
    text: &mut String,
    request: &Request,
    reply: &Result<Receipt, Refusal>,
) -> Result<(), OutOfMemory>
    ensures { IfOk result (λ _. string_bytes text.new ≡ string_bytes text.old
        ++ (outcome_text request.now reply.now ++ (10 ∷ []))) }
{
    let body = outcome_body(alloc, request, reply)?;
    text.push_str(body.as_str())?;
    text.push_str("\n")?;
    Ok(())
}

/// The same of requests, in turn.
fn put_outcomes(
    alloc: Global,
    text: &mut String,
    requests: &[Request],
    replies: &[Result<Receipt, Refusal>],
) -> Result<(), OutOfMemory>
    ensures { IfOk result (λ _. string_bytes text.new ≡ string_bytes text.old
        ++ outcomes_text requests.now replies.now) }
{
    let [request, requests @ ..] = requests else {
        return Ok(());
    };
    let [reply, replies @ ..] = replies else {
        return Ok(());
    };
    put_outcome(alloc, text, request, reply)?;
    put_outcomes(alloc, text, requests, replies)?;
    Ok(())
}

/// What came of requests, in turn: what each did and its receipt, or the refusal as JSON, each to the end of a line.
///
/// # Errors
///
/// Want of memory.
pub fn outcomes_text(
    alloc: Global,
    requests: &[Request],
    replies: &[Result<Receipt, Refusal>],
) -> Result<String, OutOfMemory>
    ensures { IfOk result (λ text. string_bytes text ≡ outcomes_text requests.now replies.now) }
{
    let mut text = String::new(alloc);
    put_outcomes(alloc, &mut text, requests, replies)?;
    Ok(text)
}
