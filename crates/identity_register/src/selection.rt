//! Items and links of a package that are chosen to move together.
use sheet_types::command::Relation;
use uuid::Uuid;

/// Items by their identities, and links by their mappings and ends, each in the order of the model.
#[derive(Drop)]
pub struct Selection {
    pub identities: Vec<Uuid>,
    pub links: Vec<Relation>,
}
