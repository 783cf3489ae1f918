//! Identities and links as texts. An identity goes by its number.

use crate::requests::item;
use package_tables::fault::Fault;
use sheet_types::command::{Mapping, Relation};
use std::alloc::{AllocError, Global};
use uuid::Uuid;

/// The number of an identity: of one that `item` gives, or that is itself a number below 256; 0 of
/// any other. It goes by the bytes, since a cast of 128 bits costs a proof a minute.
pub fn number_of(identity: Uuid) -> u8 {
    let last = identity.as_bytes()[15];
    if identity == item(last) || identity == Uuid::from_u128(u128::from(last)) {
        last
    } else {
        0
    }
}

/// The numbers of identities, each with an end behind it.
pub fn identities_text(alloc: Global, identities: &[Uuid]) -> Result<String, AllocError> {
    let mut text = String::new(alloc);
    for identity in identities {
        text.push_str(format!(in alloc; "{};", number_of(*identity))?.as_str())?;
    }
    Ok(text)
}

fn mapping_text(mapping: Mapping) -> &'static str {
    match mapping {
        Mapping::TilesMedia => "tile-medium",
        Mapping::RowsMedia => "row-medium",
        Mapping::RowsTiles => "row-tile",
    }
}

/// Links by their mapping and the numbers of both ends, each with an end behind it.
pub fn links_text(alloc: Global, links: &[Relation]) -> Result<String, AllocError> {
    let mut text = String::new(alloc);
    for link in links {
        let mapping = mapping_text(link.mapping);
        let (base, other) = (number_of(link.base), number_of(link.other));
        text.push_str(format!(in alloc; "{mapping} {base} {other};")?.as_str())?;
    }
    Ok(text)
}

/// Yes or no.
pub fn answered(alloc: Global, answer: bool) -> Result<String, Fault> {
    Ok(String::from_str(alloc, if answer { "yes" } else { "no" })?)
}
