//! Why stores stand for no world, with the number of the receipt that names what is at fault.
ghost use Rattle.std.specs.Prelude.{◌<◌, length, IfOk, IfSome, Some};
ghost use Rattle.std.specs.List.{AllZip};
ghost use Rattle.opening_numbers.specs.Numbers.{IsGreatest, Names};
ghost use Rattle.command_folder.specs.Numbering.{IsLookAt, IsNumberOf, IsSeenOf, Tells};

use crate::choosing::{look_into, push};
use crate::endings::OpenFault;
use opening_faults::faults::RecoverFault;
use opening_faults::sights::Sight;
use opening_numbers::numbers::{may_be_named, receipt_number};
use sqlite::{Alter, Connection};
use std::alloc::Global;
use store_folder::fault::FolderFault;

/// What the store at a place says of itself; `None` where it fails.
fn look_at<S: Alter + Drop>(
    alloc: Global,
    stores: &mut Vec<Connection<S>>,
    at: usize,
) -> Result<Option<Sight>, FolderFault>
    requires { at < length stores.old.items }
    ensures { IfOk result (λ found. IfSome found (
        IsLookAt S.Store stores.old.items stores.new.items at)) }
{
    let conn = &mut stores[at];
    look_into(alloc, conn)
}

/// What each store says of itself, in turn; `None` where one fails.
fn look_at_each<S: Alter + Drop>(
    alloc: Global,
    stores: &mut Vec<Connection<S>>,
) -> Result<Option<Vec<Sight>>, FolderFault>
    ensures { IfOk result (λ found. IfSome found (λ sights.
        AllZip (IsSeenOf S.Store) stores.old.items sights.items)) }
{
    let count = stores.len();
    let mut sights = Vec::with_capacity(alloc, count)?;
    for at in 0..count {
        let Some(sight) = look_at(alloc, stores, at)? else {
            return Ok(None);
        };
        push(&mut sights, sight)?;
    }
    Ok(Some(sights))
}

/// The number of the receipt that names what a fault is of, by what stores say of themselves; `None`
/// where no receipt names it, and where memory gives out.
fn number_in(alloc: Global, sights: &[Sight], fault: RecoverFault) -> Option<u64>
    ensures { IfSome result (λ n. IsGreatest (Names sights.now fault) (Some n)) }
{
    match receipt_number(alloc, sights, fault) {
        Ok(found) => found,
        Err(_) => None,
    }
}

/// The same of all these stores: the number of the open split that lent the package, or of the
/// addition of the item in the store of a live package. Of several it is the greatest. `None` too
/// where a store fails.
fn number_among<S: Alter + Drop>(
    alloc: Global,
    stores: &mut Vec<Connection<S>>,
    fault: &RecoverFault,
) -> Option<u64>
    ensures { IfSome result (IsNumberOf S.Store stores.old.items fault.now) }
{
    if !may_be_named(*fault) {
        return None;
    }
    let seen = look_at_each(alloc, stores);
    match seen {
        Ok(Some(sights)) => number_in(alloc, &sights, *fault),
        _ => None,
    }
}

/// The fault of these stores, with the number of the receipt that names what is at fault, where it
/// can be had. The stores are handed back.
pub(crate) fn with_number<S: Alter + Drop>(
    alloc: Global,
    fault: RecoverFault,
    stores: Vec<Connection<S>>,
) -> (OpenFault, Vec<Connection<S>>)
    ensures { Tells S.Store stores.items fault result.0 }
{
    let mut stores = stores;
    let number = number_among(alloc, &mut stores, &fault);
    let told = match number {
        Some(number) => OpenFault::Numbered(fault, number),
        None => OpenFault::Fault(fault),
    };
    (told, stores)
}
