//! What an account says.
use crate::flows::Flow;
use crate::things::Thing;
use std::collections::BTreeMap;
use uuid::Uuid;

/// Where each thing stands, and what came to each package and left it.
#[derive(Drop)]
pub struct Account {
    pub places: BTreeMap<Thing, Option<Uuid>>,
    pub flows: BTreeMap<Uuid, Flow>,
}
