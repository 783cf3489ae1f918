// What is told as texts. An identity, a package or a request goes by its number; of the packages of
// `test_worlds` it is the first digit.
use crate::loans::{A, B, package};
use sheet_types::receipt::Sums;
use std::alloc::{AllocError, Global};
use test_values::number_of;
use uuid::Uuid;
use world::reading::PackageSight;

pub fn number(identity: Uuid) -> u8 {
    if identity == package(A) {
        A
    } else if identity == package(B) {
        B
    } else {
        number_of(identity)
    }
}

// 0 where there is none.
pub fn end(identity: Option<Uuid>) -> u8 {
    match identity {
        Some(identity) => number(identity),
        None => 0,
    }
}

// So many tiles, media, rows, links and bytes.
pub fn push_sums(alloc: Global, sums: Sums, text: &mut String) -> Result<(), AllocError> {
    let told = format!(in alloc;
        "{} {} {} {} {} ",
        sums.tiles, sums.media, sums.rows, sums.links, sums.bytes
    )?;
    text.push_str(told.as_str())
}

fn push_sight(alloc: Global, sight: &PackageSight, text: &mut String) -> Result<(), AllocError> {
    let (uuid, parent) = (number(sight.uuid), end(sight.parent));
    let told = format!(in alloc; "{uuid} of {parent}, {} {};", sight.depth, sight.ticket)?;
    text.push_str(told.as_str())
}

// Each with an end behind it, in one line.
pub fn push_sights(
    alloc: Global,
    sights: &[PackageSight],
    text: &mut String,
) -> Result<(), AllocError> {
    for sight in sights {
        push_sight(alloc, sight, text)?;
    }
    text.push('\n')
}
