//! The contents that a package holds, among which an equal one is found.
ghost use Rattle.std.specs.Prelude.{◌≡◌, map, false, IfOk, IfNone, IfSome, IsPermutation};
ghost use Rattle.std.specs.List.{list_any};
ghost use Rattle.field_changes.specs.Keys.{same_content};

use crate::keys::content_order;
use crate::sharing::HeldContent;
use sheet_types::command::{Content, Item};
use sheet_types::error::OutOfMemory;
use std::alloc::Global;
use std::marker::Model;

/// The contents of the items of a package, in the order of their bytes. To a contract it is their
/// list.
#[derive(Drop)]
pub struct Known<'a> {
    contents: Vec<&'a Content>,
}

impl<'a> Model for Known<'a> {
    ghost use Rattle.std.specs.Prelude.{List, map};
    ghost use Rattle.sheet_types.specs.declared.command.Content.{Content};

    ghost Value = { List Content };

    ghost use Rattle.field_changes.specs.Sharing.{AreInOrder};

    ghost view = { λ k. map (λ c. c.now) k.contents.items };

    ghost invariant = { λ k. AreInOrder k.contents.items };
}

// The contents of items.
fn contents_of<'a>(alloc: Global, items: &'a [Item]) -> Result<Vec<&'a Content>, OutOfMemory>
    ensures { IfOk result (λ contents. map (λ c. c.now) contents.items ≡ map (λ i. i.content) items.now) }
{
    let mut contents = Vec::new(alloc);
    for item in items {
        contents.push(&item.content)?;
    }
    Ok(contents)
}

impl<'a> Known<'a> {
    /// Those of these items.
    ///
    /// # Errors
    ///
    /// Want of memory.
    pub fn of(alloc: Global, items: &'a [Item]) -> Result<Known<'a>, OutOfMemory>
        ensures { IfOk result (λ known. IsPermutation (map (λ i. i.content) items.now) known) }
    {
        let mut contents = contents_of(alloc, items)?;
        contents.sort_unstable_by(|a, b| content_order(a, b));
        Ok(Known { contents })
    }

    // The content of the package that is this one, byte by byte.
    fn same_as(&self, content: &Content) -> Option<&'a Content>
        ensures some { IfSome result (λ known. known.now ≡ content.now) }
        ensures none { IfNone result (list_any (same_content content.now) self.now ≡ false) }
    {
        let contents = self.contents.as_slice();
        match contents.binary_search_by(|known| content_order(known, content)) {
            Ok(place) => Some(contents[place]),
            Err(_) => None,
        }
    }

    /// A content: that of the package, where it is this one; else as it is.
    pub fn share(&self, content: Content) -> HeldContent<'a>
        ensures { result ≡ content }
    {
        match self.same_as(&content) {
            Some(known) => HeldContent::shared(known),
            None => HeldContent::own(content),
        }
    }
}
