//! The pieces of a custody page (HTML 5).
ghost use Rattle.std.specs.Prelude.{◌≡◌, ◌++◌, IfOk, option_map, string_bytes};
ghost use Rattle.view_loan.specs.Pieces.{keeper_or, keeper_text, tie_found, told_item, told_pair, whole_name};

use std::alloc::AllocError;
use uuid::Uuid;
use view_report::lists::Names;
use view_report::pieces::{
    put, put_about, put_called, put_holder_class, put_name, put_short, put_uuid,
};
use view_report::registers::{Register, Tie, is_same, thing_found};

/// Puts a package in its colour, if it lives; it leads nowhere.
pub(crate) fn put_keeper(text: &mut String, register: &Register, id: Uuid) -> Result<(), AllocError>
    ensures { IfOk result (λ _. string_bytes text.new ≡ string_bytes text.old ++ keeper_text register.now id) }
{
    put(text, "<span class=\"h ")?;
    put_holder_class(text, register, id)?;
    put(text, "\">")?;
    put_name(text, &register.names, id)?;
    put(text, "</span>")?;
    Ok(())
}

/// Puts an end of a receipt, or a word where it has none.
pub(crate) fn put_keeper_or(
    text: &mut String,
    register: &Register,
    end: Option<Uuid>,
    none: &str,
) -> Result<(), AllocError>
    ensures { IfOk result (λ _. string_bytes text.new ≡ string_bytes text.old
        ++ keeper_or register.now end none.now) }
{
    match end {
        Some(id) => put_keeper(text, register, id),
        None => put(text, none),
    }
}

/// Puts what people call a package, and its whole UUID.
pub(crate) fn put_whole_name(text: &mut String, names: &Names, id: Uuid) -> Result<(), AllocError>
    ensures { IfOk result (λ _. string_bytes text.new ≡ string_bytes text.old ++ whole_name names.now id) }
{
    put_called(text, names, id)?;
    put(text, "<code>")?;
    put_uuid(text, id)?;
    put(text, "</code>")?;
    Ok(())
}

/// Puts an item in a few words where a package holds it, else its identity.
pub(crate) fn put_told(text: &mut String, register: &Register, id: Uuid) -> Result<(), AllocError>
    ensures { IfOk result (λ _. string_bytes text.new ≡ string_bytes text.old ++ told_item register.now id) }
{
    match thing_found(&register.things, id) {
        Some(found) => put_about(text, &register.names, found),
        None => put_short(text, id),
    }
}

/// Puts the two ends of a link.
pub(crate) fn put_told_pair(
    text: &mut String,
    register: &Register,
    base: Uuid,
    other: Uuid,
) -> Result<(), AllocError>
    ensures { IfOk result (λ _. string_bytes text.new ≡ string_bytes text.old ++ told_pair register.now base other) }
{
    put_told(text, register, base)?;
    put(text, " &harr; ")?;
    put_told(text, register, other)?;
    Ok(())
}

/// The link of two ends, if a package holds it.
pub(crate) fn tie_found(ties: &[Tie], base: Uuid, other: Uuid) -> Option<&Tie>
    ensures { option_map (λ t. t.now) result ≡ tie_found ties.now base other }
{
    ties.iter()
        .find(|tie| is_same(tie.base, base) && is_same(tie.other, other))
}
