//! The whole texts: of an export, and of tables of another program's file.
ghost use Rattle.std.specs.Prelude.{◌≡◌, IfOk, string_bytes};
ghost use Rattle.std.specs.Option.{option_map};
ghost use Rattle.field_sql.specs.Holds.{holds};
ghost use Rattle.field_sql.specs.Stock.{stock_holds};

use crate::parts::{body, own_tables, start};
use crate::stock::{Points, no_register, points_or_none, tiles_or_none};
use std::alloc::{AllocError, Global};

/// The SQL that lists what an export holds.
///
/// # Errors
///
/// Want of memory.
pub fn holds(alloc: Global) -> Result<String, AllocError>
    ensures { IfOk result (λ text. string_bytes text ≡ holds) }
{
    let start = start();
    let tables = own_tables();
    let body = body(alloc)?;
    format!(in alloc; "{start}{tables}{body}")
}

/// The SQL that lists what these tables of another program's file hold: a pyramid of tiles, and points.
///
/// # Errors
///
/// Want of memory.
pub fn stock_holds(
    alloc: Global,
    tiles: Option<&str>,
    points: Option<&Points<'_>>,
) -> Result<String, AllocError>
    ensures { IfOk result (λ text. string_bytes text
        ≡ stock_holds (option_map (λ t. t.now) tiles.entry) (option_map (λ p. p.now) points.entry)) }
{
    let start = start();
    let register = no_register();
    let tiles = tiles_or_none(alloc, tiles)?;
    let points = points_or_none(alloc, points)?;
    let body = body(alloc)?;
    format!(in alloc; "{start}{register}{tiles}{points}{body}")
}
