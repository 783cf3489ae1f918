//! The one that a word names, of what was found for it.
ghost use Rattle.std.specs.Prelude.{◌≡◌};
ghost use Rattle.command_naming.specs.Naming.{named, of_found};

use command_names::searching::Found;
use command_verbs::names::NameFault;
use uuid::Uuid;

/// The only one that was found.
fn of_found(found: &Found) -> Result<Uuid, NameFault>
    ensures { result ≡ of_found found.now }
{
    match found {
        Found::One(id) => Ok(*id),
        Found::Two(first, second) => Err(NameFault::Two(*first, *second)),
        Found::Nearest(_) => Err(NameFault::Unknown),
    }
}

/// The one that a word names, of what was found for it; a name has at least four characters.
///
/// # Errors
///
/// Why it names none.
pub fn pick_one(word: &str, found: &Found) -> Result<Uuid, NameFault>
    ensures { result ≡ named word.now found.now }
{
    if word.len() < 4 {
        return Err(NameFault::Short);
    }
    of_found(found)
}
