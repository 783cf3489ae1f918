//! How many sheets lie below one.
ghost use Rattle.std.specs.Prelude.{◌≡◌, ◌+◌, IfOk, Some, min, nat_eq, unwrap_or};
ghost use Rattle.std.specs.HashMap.{Updates, get};
ghost use Rattle.view_map.specs.Layout.{number};

use crate::holders::Place;
use crate::layout::Layout;
use sheet_types::error::OutOfMemory;
use std::collections::HashMap;

/// The number of a place: row by row.
pub fn number(layout: &Layout, place: &Place) -> u128
    ensures { result ≡ number layout.now place.now }
{
    let before = u128::from(place.row) * u128::from(layout.columns);
    before + u128::from(place.column)
}

/// One more, four at most.
fn one_more(layer: u64) -> u64
    ensures { result ≡ min 4 (layer + 1) }
{
    if layer < 4 { layer + 1 } else { 4 }
}

/// How many sheets were counted at the place of this number, four at most; one more is counted there then.
pub fn add_layer(layers: &mut HashMap<u128, u64>, number: u128) -> Result<u64, OutOfMemory>
    ensures layer { IfOk result (λ layer. layer ≡ unwrap_or (get nat_eq layers.old number) 0) }
    ensures counted { IfOk result (λ layer. Updates nat_eq layers.old layers.new number (Some (min 4 (layer + 1)))) }
{
    let layer = layers.get(&number).copied().unwrap_or(0);
    layers.insert(number, one_more(layer))?;
    Ok(layer)
}
