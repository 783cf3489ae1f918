//! Which sheets are drawn, in the order in which they are.
ghost use Rattle.std.specs.Prelude.{◌≡◌, ◌++◌, ℕ, IfOk, OnOk};
ghost use Rattle.view_map.specs.Sheets.{all_sheets, is_loan, is_wanted, sheets_of, sheets_where, wanted_sheets};

use crate::holders::{Holder, Place};
use crate::layout::{Layout, is_on};
use sheet_types::error::OutOfMemory;
use std::alloc::{AllocError, Global};
use uuid::Uuid;

/// A tile that a package holds.
#[derive(Clone, Copy, PartialEq, Eq)]
pub struct Sheet {
    pub place: Place,
    /// The place of the package in the list of packages, from 0.
    pub index: usize,
    /// The package.
    pub uuid: Uuid,
}

/// Whether a package is a loan.
fn is_loan(holder: &Holder) -> bool
    ensures { result ≡ is_loan holder.now }
{
    holder.depth > 0
}

/// The sheets of a package that are on the map, in the order of its places.
fn sheets_of(
    alloc: Global,
    layout: &Layout,
    index: usize,
    holder: &Holder,
) -> Result<Vec<Sheet>, AllocError>
    ensures { IfOk result (λ sheets. sheets.items ≡ sheets_of layout.now index holder.now) }
{
    let uuid = holder.uuid;
    holder
        .places
        .iter()
        .filter(|place| is_on(layout, place))
        .map(|place| Sheet {
            place: *place,
            index,
            uuid,
        })
        .collect(alloc)
}

/// Whether a package is one of the loans, or of those that are none.
fn is_wanted(loans: bool, holder: &Holder) -> bool
    ensures { result ≡ is_wanted loans holder.now }
{
    if loans {
        is_loan(holder)
    } else {
        !is_loan(holder)
    }
}

/// The sheets of a package where it is wanted.
fn wanted_sheets(
    alloc: Global,
    layout: &Layout,
    loans: bool,
    index: usize,
    holder: &Holder,
) -> Result<Vec<Sheet>, AllocError>
    ensures { IfOk result (λ sheets. sheets.items ≡ wanted_sheets layout.now loans index holder.now) }
{
    if is_wanted(loans, holder) {
        sheets_of(alloc, layout, index, holder)
    } else {
        Ok(Vec::new(alloc))
    }
}

/// Adds the sheets of the loans, or of those that are none.
fn add_sheets(
    alloc: Global,
    sheets: &mut Vec<Sheet>,
    layout: &Layout,
    loans: bool,
    holders: &[Holder],
) -> Result<(), AllocError>
    ensures { OnOk result (sheets.new.items ≡ sheets.old.items ++ sheets_where layout.now loans 0 holders.now) }
{
    for (index, holder) in holders.iter().enumerate() {
        let more = wanted_sheets(alloc, layout, loans, index, holder)?;
        sheets.extend_from_slice(more.as_slice())?;
    }
    Ok(())
}

/// All sheets of a map in the order in which they are drawn: those of loans over those of the archive.
pub fn all_sheets(
    alloc: Global,
    layout: &Layout,
    holders: &[Holder],
) -> Result<Vec<Sheet>, OutOfMemory>
    ensures { IfOk result (λ sheets. sheets.items ≡ all_sheets layout.now holders.now) }
{
    let mut sheets = Vec::new(alloc);
    add_sheets(alloc, &mut sheets, layout, false, holders)?;
    add_sheets(alloc, &mut sheets, layout, true, holders)?;
    Ok(sheets)
}
