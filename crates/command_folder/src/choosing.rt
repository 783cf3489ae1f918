//! Which files of a folder an opening holds open: in a folder of many those of live packages alone.
ghost use Rattle.std.specs.Prelude.{◌≡◌, ◌∷◌, ◌++◌, [], ℕ, List, IfOk, IfSome, OnOk};
ghost use Rattle.std.specs.List.{AllZip};
ghost use Rattle.command_folder.specs.Choosing.{AreJustOpened, IsChosen, IsGlanced, IsGlancedAt};
ghost use Rattle.opening_faults.specs.declared.sights.Sight.{Sight};
ghost use Rattle.opening_live.specs.Chosen.{live_packages};

use opening_faults::sights::Sight;
use opening_glances::glance::glance;
use opening_live::choosing::live_packages;
use package_tables::fault::Fault;
use sqlite::{Alter, Connection};
use sqlite_trees::store::Store;
use std::alloc::Global;
use store_folder::fault::FolderFault;
use store_folder::opening::{close_stores, open_stores};
use store_folder::start::FolderStore;
use store_sql::resting::is_at_rest;
use uuid::Uuid;

/// So many files are held open at once, whatever they are.
const MOST_AT_ONCE: usize = 32;

/// What is held open of a folder.
#[derive(Drop)]
pub(crate) struct Chosen {
    /// The packages whose stores are opened together.
    pub packages: Vec<Uuid>,
    /// How many packages are left out.
    pub left: usize,
}

/// What glances at the stores of a folder, one after the other.
pub(crate) trait Glances {
    /// This was seen of the store in the file of this package.
    ghost shown: { List ℕ → Sight → Type 0 };

    /// What the store of a package says of itself; `None` where it fails.
    fn look(&self, alloc: Global, package: Uuid) -> Result<Option<Sight>, FolderFault>
        ensures { IfOk result (λ found. IfSome found (λ sight. shown «package» sight)) };
}

/// What a store says of itself; `None` where it fails.
pub(crate) fn look_into<S: Alter>(
    alloc: Global,
    conn: &mut Connection<S>,
) -> Result<Option<Sight>, FolderFault>
    ensures { IfOk result (λ found. IfSome found (IsGlancedAt S.Store conn.old conn.new)) }
{
    if !is_at_rest(conn) {
        return Ok(None);
    }
    match glance(conn, alloc) {
        Ok(sight) => Ok(Some(sight)),
        Err(Fault::OutOfMemory) => Err(FolderFault::OutOfMemory),
        Err(Fault::StoreFault) => Ok(None),
    }
}

/// The same of the first of some stores, which are handed back.
fn look_first<S: Alter + Drop>(
    alloc: Global,
    mut stores: Vec<Connection<S>>,
) -> (Result<Option<Sight>, FolderFault>, Vec<Connection<S>>)
    requires { AreJustOpened S.Store stores.items }
    ensures { IfOk result.0 (λ found. IfSome found (IsGlanced S.Store)) }
{
    if stores.is_empty() {
        return (Ok(None), stores);
    }
    let seen = look_into(alloc, &mut stores[0]);
    (seen, stores)
}

/// A folder of the file system.
#[derive(Drop)]
pub(crate) struct FolderGlances<'f> {
    pub rt: &'f HostRuntime,
    pub folder: &'f str,
}

impl<'f> Glances for FolderGlances<'f> {
    // No clause can speak of what a path leads to: that the store is that of the package has to be read.
    ghost shown = { λ uuid sight. IsGlanced ⟦<FolderStore as Store>⟧ sight };

    fn look(&self, alloc: Global, package: Uuid) -> Result<Option<Sight>, FolderFault> {
        let stores = open_stores(self.rt, self.folder, [package].as_slice())?;
        let (seen, stores) = look_first(alloc, stores);
        close_stores(stores);
        seen
    }
}

/// Puts one more behind a list.
pub(crate) fn push(sights: &mut Vec<Sight>, sight: Sight) -> Result<(), FolderFault>
    ensures { OnOk result (sights.new.items ≡ sights.old.items ++ sight ∷ []) }
{
    match sights.push(sight) {
        Ok(()) => Ok(()),
        Err(_) => Err(FolderFault::OutOfMemory),
    }
}

/// What the stores of these packages say of themselves, in turn; `None` where one fails.
fn look_at_all<G: Glances>(
    alloc: Global,
    folder: &G,
    packages: &[Uuid],
) -> Result<Option<Vec<Sight>>, FolderFault>
    ensures { IfOk result (λ found. IfSome found (λ sights.
        AllZip G.shown packages.now sights.items)) }
{
    let mut sights = Vec::with_capacity(alloc, packages.len())?;
    for package in packages {
        let Some(sight) = folder.look(alloc, *package)? else {
            return Ok(None);
        };
        push(&mut sights, sight)?;
    }
    Ok(Some(sights))
}

/// All of these packages.
fn all_of(packages: Vec<Uuid>) -> Chosen
    ensures packages { result.packages.items ≡ packages.items }
    ensures left { result.left ≡ 0 }
{
    Chosen { packages, left: 0 }
}

/// Those of them that live by these sights.
fn live_of(alloc: Global, packages: &[Uuid], sights: Vec<Sight>) -> Result<Vec<Uuid>, FolderFault>
    ensures { IfOk result (λ live. live.items ≡ live_packages sights.items packages.now) }
{
    match live_packages(alloc, packages, sights) {
        Ok(live) => Ok(live),
        Err(_) => Err(FolderFault::OutOfMemory),
    }
}

/// Which packages of a folder an opening holds open: all where there are few of them, or where one cannot be glanced
/// at, so that its fault is told; and else those that live, by what all stores say of themselves.
///
/// # Errors
///
/// A file that cannot be opened, or want of memory.
pub(crate) fn choose<G: Glances>(
    alloc: Global,
    folder: &G,
    packages: Vec<Uuid>,
) -> Result<Chosen, FolderFault>
    ensures { IfOk result (IsChosen G.shown packages.items) }
{
    if packages.len() <= MOST_AT_ONCE {
        return Ok(all_of(packages));
    }
    let Some(sights) = look_at_all(alloc, folder, &packages)? else {
        return Ok(all_of(packages));
    };
    let live = live_of(alloc, &packages, sights)?;
    let left = packages.len().saturating_sub(live.len());
    Ok(Chosen {
        packages: live,
        left,
    })
}
