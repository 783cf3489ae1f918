//! What the stores handed in to an opening say of themselves, and what follows from it: which of
//! them are found, which open splits have no store or two, and which loan is not at home. It stands
//! on values alone and knows no store.
#![tactic(auto)]

pub mod altered;
pub mod archives;
pub mod claiming;
pub mod copies;
pub mod faults;
pub mod foreign;
pub mod homes;
pub mod item_keys;
pub mod keys;
pub mod least;
pub mod merging;
pub mod reaching;
pub mod sights;
pub mod splits;
pub mod standing;
pub mod unfit;
