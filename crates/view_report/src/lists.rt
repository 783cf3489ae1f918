//! Things and names in their order, each found by its UUID.
ghost use Rattle.std.specs.Prelude.{◌≡◌, IfOk, option_map};
ghost use Rattle.view_report.specs.Places.{ArePlaces};
ghost use Rattle.view_report.specs.Registers.{name_of, thing_found};

use crate::registers::{Name, Thing};
use std::alloc::{AllocError, Global};
use std::collections::HashMap;
use std::marker::Model;
use uuid::Uuid;

/// Items in their order, each found by its identity. To a contract it is the list.
#[derive(Drop)]
pub struct Things {
    list: Vec<Thing>,
    places: HashMap<Uuid, usize>,
}

impl Model for Things {
    ghost use Rattle.std.specs.Prelude.{List};
    ghost use Rattle.view_report.specs.Places.{ArePlaces};
    ghost use Rattle.view_report.specs.declared.registers.Thing.{Thing};

    ghost Value = { List Thing };

    ghost view = { λ t. t.list.items };

    ghost invariant = { λ t. ArePlaces (λ x. x.identity) t.places t.list.items };
}

/// Where each item stands, by its identity.
fn places_of_things(alloc: Global, list: &[Thing]) -> Result<HashMap<Uuid, usize>, AllocError>
    ensures { IfOk result (λ places. ArePlaces (λ t. t.identity) places list.now) }
{
    let mut left = list.len();
    let mut places = HashMap::with_capacity(alloc, left)?;
    while left > 0 {
        left -= 1;
        places.insert(list[left].identity, left)?;
    }
    Ok(places)
}

impl Things {
    /// These items.
    ///
    /// # Errors
    ///
    /// Want of memory.
    pub fn new(list: Vec<Thing>) -> Result<Things, AllocError>
        ensures { IfOk result (λ things. things ≡ list.items) }
    {
        let places = places_of_things(*list.allocator(), &list)?;
        Ok(Things { list, places })
    }

    /// The items in their order.
    pub fn as_slice(&self) -> &[Thing]
        ensures { result.now ≡ self.now }
    {
        self.list.as_slice()
    }

    /// The items alone.
    pub fn into_vec(self) -> Vec<Thing>
        ensures { result.items ≡ self }
    {
        self.list
    }

    /// The item of this identity, if there is one.
    pub fn find_thing(&self, identity: Uuid) -> Option<&Thing>
        ensures { option_map (λ t. t.now) result ≡ thing_found self.now identity }
    {
        let place = self.places.get(&identity)?;
        self.list.get(*place)
    }
}

/// Names in their order, each found by its UUID. To a contract it is the list.
#[derive(Drop)]
pub struct Names {
    list: Vec<Name>,
    places: HashMap<Uuid, usize>,
}

impl Model for Names {
    ghost use Rattle.std.specs.Prelude.{List};
    ghost use Rattle.view_report.specs.Places.{ArePlaces};
    ghost use Rattle.view_report.specs.declared.registers.Name.{Name};

    ghost Value = { List Name };

    ghost view = { λ n. n.list.items };

    ghost invariant = { λ n. ArePlaces (λ x. x.uuid) n.places n.list.items };
}

/// Where each name stands, by its UUID.
fn places_of_names(alloc: Global, list: &[Name]) -> Result<HashMap<Uuid, usize>, AllocError>
    ensures { IfOk result (λ places. ArePlaces (λ n. n.uuid) places list.now) }
{
    let mut left = list.len();
    let mut places = HashMap::with_capacity(alloc, left)?;
    while left > 0 {
        left -= 1;
        places.insert(list[left].uuid, left)?;
    }
    Ok(places)
}

impl Names {
    /// These names.
    ///
    /// # Errors
    ///
    /// Want of memory.
    pub fn new(list: Vec<Name>) -> Result<Names, AllocError>
        ensures { IfOk result (λ names. names ≡ list.items) }
    {
        let places = places_of_names(*list.allocator(), &list)?;
        Ok(Names { list, places })
    }

    /// The first name of this UUID, if there is one.
    pub fn find_name(&self, uuid: Uuid) -> Option<&Name>
        ensures { option_map (λ n. n.now) result ≡ name_of self.now uuid }
    {
        let place = self.places.get(&uuid)?;
        self.list.get(*place)
    }
}
