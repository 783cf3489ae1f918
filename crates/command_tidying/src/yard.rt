//! A folder of packages, as far as it is made tidy.
ghost use Rattle.std.specs.Prelude.{ℕ, IfOk, IfSome, List};
ghost use Rattle.opening_verdict.specs.declared.seen.StoreSeen.{StoreSeen};

use opening_verdict::seen::StoreSeen;
use std::alloc::Global;
use store_folder::fault::FolderFault;
use uuid::Uuid;

/// A folder whose names are read, whose stores are looked at one after the other, and out of which files are taken.
pub trait Yard {
    /// These were the names in the folder, each ended by a NUL.
    ghost listed: { List ℕ → Type 0 };

    /// This was seen of the store in the file of this package.
    ghost shown: { List ℕ → StoreSeen → Type 0 };

    /// The file of this name was taken out of the folder between these two states, if it was there,
    /// and no other was. Who takes files out by this trait alone can show it of a name by such a
    /// call, and by nothing else.
    ghost removes: { List ℕ → Self → Self → Type 0 };

    /// The names in the folder.
    fn names(&self, alloc: Global) -> Result<Vec<u8>, FolderFault>
        ensures { IfOk result (λ bytes. listed bytes.items) };

    /// Looks at the store in the file of a package; `None` where it cannot be looked at.
    fn look(&self, alloc: Global, package: Uuid) -> Result<Option<StoreSeen>, FolderFault>
        ensures { IfOk result (λ found. IfSome found (λ seen. shown «package» seen)) };

    /// Removes the file of this name. One that is not there is no fault.
    fn remove_file(&mut self, name: &str) -> Result<(), FolderFault>
        ensures { removes name.now self.old self.new };
}
