// What a world is told and reads as, as texts.
use desk_replies::bodies::{receipt_body, refusal_body};
use package_tables::fault::Fault;
use sheet_types::command::{Item, Relation};
use sheet_types::receipt::Receipt;
use sheet_types::refusal::Refusal;
use sqlite::Alter;
use std::alloc::{AllocError, Global};
use test_values::{links_text, number_of, question};
use uuid::Uuid;
use world::world::World;

/// A reply, as the desk has it.
pub fn reply_text(alloc: Global, reply: &Result<Receipt, Refusal>) -> Result<String, Fault> {
    let body = match reply {
        Ok(receipt) => receipt_body(alloc, receipt),
        Err(why) => refusal_body(alloc, why),
    };
    match body {
        Ok(text) => Ok(text),
        Err(_) => Err(Fault::OutOfMemory),
    }
}

// Items and links by their numbers.
fn push_things(
    alloc: Global,
    items: &[Item],
    links: &[Relation],
    text: &mut String,
) -> Result<(), AllocError> {
    for item in items {
        text.push_str(format!(in alloc; "{};", number_of(item.identity))?.as_str())?;
    }
    text.push_str(links_text(alloc, links)?.as_str())?;
    text.push('\n')
}

fn push_holdings<S: Alter + Drop>(
    alloc: Global,
    world: &mut World<S>,
    package: Uuid,
    text: &mut String,
) -> Result<(), Fault> {
    match world.holdings(alloc, package)? {
        Some((items, links)) => Ok(push_things(alloc, &items, &links, text)?),
        None => Err(Fault::StoreFault),
    }
}

// The number of the receipt of a request, 0 of none.
fn seq<S: Alter + Drop>(alloc: Global, world: &mut World<S>, id: Uuid) -> Result<u64, Fault> {
    match world.receipt(alloc, id)? {
        Some(receipt) => Ok(receipt.seq),
        None => Ok(0),
    }
}

/// Each live package with its last receipt and what it holds; and the numbers of the receipts of
/// the first so many requests.
pub fn world_text<S: Alter + Drop>(
    alloc: Global,
    world: &mut World<S>,
    count: u8,
) -> Result<String, Fault> {
    let mut text = String::new(alloc);
    for sight in &world.packages(alloc)? {
        text.push_str(format!(in alloc; "{} {}:", sight.uuid, sight.ticket)?.as_str())?;
        push_holdings(alloc, world, sight.uuid, &mut text)?;
    }
    for number in 1..count.saturating_add(1) {
        let seq = seq(alloc, world, question(number))?;
        text.push_str(format!(in alloc; "{seq};")?.as_str())?;
    }
    Ok(text)
}
