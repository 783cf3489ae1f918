//! The UUIDs that receipts name, each with a package that has such a receipt.
ghost use Rattle.std.specs.Prelude.{◌≡◌, ⊤, [], Contains, None, OnOk, MatchOption};
ghost use Rattle.std.specs.List.{AllByRecursion};
ghost use Rattle.world_known.specs.Known.{Grows, Notes};

use sheet_types::receipt::{Moved, Receipt};
use std::alloc::{AllocError, Global};
use std::collections::BTreeMap;
use std::marker::Model;
use uuid::Uuid;

/// The UUIDs that the receipts of a world name: of requests, of things and of packages. What is not
/// among them is named by no receipt. Each leads to a package in which a receipt that names it was
/// entered; where that is not live any more, it was merged, and its own UUID leads on to the
/// package that took it.
///
/// An entry is 32 bytes, and a command that adds an item makes two, the request and the item.
#[derive(Drop)]
pub struct Known {
    places: BTreeMap<Uuid, Uuid>,
}

impl Model for Known {
    ghost use Rattle.std.specs.Prelude.{ℕ, List};
    ghost use Rattle.std.specs.BTreeMap.{keys};

    ghost Value = { List (List ℕ) };

    ghost view = { λ k. keys k.places };
}

impl Known {
    /// Nothing is known yet. Takes no memory.
    pub fn new(alloc: Global) -> Known
        ensures { result ≡ [] }
    {
        Known {
            places: BTreeMap::new(alloc),
        }
    }

    /// The package to which a UUID leads. That there is one tells nothing by itself: the package
    /// may not have the receipt any more, and a request that was not carried out may have been
    /// noted. That there is none says that no receipt names it.
    pub fn place_of(&self, id: Uuid) -> Option<Uuid>
        ensures new { result ≡ None → ¬ Contains self.now id }
    {
        self.places.get(&id).copied()
    }

    /// A UUID leads to a package from now on.
    fn put(&mut self, id: Uuid, package: Uuid) -> Result<(), AllocError>
        ensures known { OnOk result (Contains self.new id) }
        ensures grows { Grows self.old self.new }
    {
        self.places.insert(id, package)?;
        Ok(())
    }

    /// The same of one that leads nowhere yet.
    fn put_new(&mut self, id: Uuid, package: Uuid) -> Result<(), AllocError>
        ensures known { OnOk result (Contains self.new id) }
        ensures grows { Grows self.old self.new }
    {
        if self.places.contains_key(&id) {
            return Ok(());
        }
        self.put(id, package)
    }

    /// The same of the things that a receipt moved.
    fn put_things(&mut self, things: &[Moved], package: Uuid) -> Result<(), AllocError>
        ensures known { OnOk result (AllByRecursion (λ m. Contains self.new m.base) things.now) }
        ensures grows { Grows self.old self.new }
    {
        for thing in things {
            self.put(thing.base, package)?;
        }
        Ok(())
    }

    /// The same of the package that things came to, if they came to one. Where that is not the one
    /// that has the receipt, it was lent by it or by one that it took; so it leads there, whatever
    /// its own receipts say.
    fn put_target(&mut self, target: Option<Uuid>, package: Uuid) -> Result<(), AllocError>
        ensures known { OnOk result (MatchOption target ⊤ (λ p. Contains self.new p)) }
        ensures grows { Grows self.old self.new }
    {
        match target {
            None => Ok(()),
            Some(target) if target == package => self.put_new(target, package),
            Some(target) => self.put(target, package),
        }
    }

    /// Notes all that a receipt names, before it is entered in a package.
    ///
    /// # Errors
    ///
    /// Want of memory. What was known is still known.
    pub fn note(&mut self, receipt: &Receipt, package: Uuid) -> Result<(), AllocError>
        ensures notes { OnOk result (Notes self.new receipt.now) }
        ensures grows { Grows self.old self.new }
    {
        self.put(receipt.request, package)?;
        self.put_things(receipt.items.as_slice(), package)?;
        self.put_target(receipt.target, package)?;
        Ok(())
    }

    /// The same of receipts that a package has.
    ///
    /// # Errors
    ///
    /// Want of memory. What was known is still known.
    pub fn note_all(&mut self, receipts: &[Receipt], package: Uuid) -> Result<(), AllocError>
        ensures notes { OnOk result (AllByRecursion (Notes self.new) receipts.now) }
        ensures grows { Grows self.old self.new }
    {
        for receipt in receipts {
            self.note(receipt, package)?;
        }
        Ok(())
    }
}
