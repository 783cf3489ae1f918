//! A kept receipt as the desk has it.
ghost use Rattle.std.specs.Prelude.{◌≡◌, ◌++◌, ◌∷◌, [], option_map, string_bytes, IfOk};
ghost use Rattle.desk_replies.specs.Bodies.{receipt_text};
ghost use Rattle.world.specs.Worlds.{IsRead, TellsOf};
ghost use Rattle.view_world.specs.Looks.{LeavesOpen};
ghost use Rattle.view_world.specs.Told.{receipt_line};

use desk_replies::bodies::receipt_body;
use package_tables::fault::Fault;
use sheet_types::error::OutOfMemory;
use sheet_types::receipt::Receipt;
use sqlite::Alter;
use std::alloc::Global;
use uuid::Uuid;
use world::world::World;

/// The body of a receipt, and the end of its line.
fn body_line(alloc: Global, receipt: &Receipt) -> Result<String, OutOfMemory>
    ensures { IfOk result (λ text. string_bytes text ≡ receipt_text receipt.now ++ (10 ∷ [])) }
{
    let mut text = receipt_body(alloc, receipt)?;
    text.push_str("\n")?;
    Ok(text)
}

/// The kept receipt of a request as the desk's JSON, on a line; `None` where there is none.
///
/// # Errors
///
/// Want of memory, or a store that failed. The world is only read.
pub fn receipt_line<S: Alter + Drop>(
    alloc: Global,
    world: &mut World<S>,
    request: Uuid,
) -> Result<Option<String>, Fault>
    ensures told { TellsOf S.Store (λ w found. option_map string_bytes found ≡ receipt_line w request)
        world.old world.new result }
    ensures read { IsRead S.Store world.old world.new }
    ensures opens { LeavesOpen S.Store world.old world.new result }
{
    match world.receipt(alloc, request)? {
        Some(receipt) => match body_line(alloc, &receipt) {
            Ok(text) => Ok(Some(text)),
            Err(_) => Err(Fault::OutOfMemory),
        },
        None => Ok(None),
    }
}
