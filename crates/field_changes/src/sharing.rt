//! The content of an item of a file: its own, or that of a package.
ghost use Rattle.std.specs.Prelude.{◌≡◌, IfOk};
ghost use Rattle.sheet_types.specs.Texts.{kind_of};

use sheet_types::command::Content;
use sheet_types::error::OutOfMemory;
use sheet_types::receipt::MovedKind;
use std::marker::Model;

// Where a content lies.
#[derive(Drop)]
pub(crate) enum Place<'a> {
    // In the item.
    Own(Content),
    // In the package.
    Shared(&'a Content),
}

/// The content of an item of a file. To a contract it is the content. One that lies in a package
/// takes no memory of its own.
#[derive(Drop)]
pub struct HeldContent<'a> {
    place: Place<'a>,
}

impl<'a> Model for HeldContent<'a> {
    ghost use Rattle.sheet_types.specs.declared.command.Content.{Content};

    ghost Value = { Content };

    ghost use Rattle.field_changes.specs.Sharing.{content_at};

    ghost view = { λ h. content_at h.place };
}

impl<'a> HeldContent<'a> {
    /// One of its own.
    pub fn own(content: Content) -> HeldContent<'a>
        ensures { result ≡ content }
    {
        HeldContent {
            place: Place::Own(content),
        }
    }

    /// That of a package.
    pub fn shared(content: &'a Content) -> HeldContent<'a>
        ensures { result ≡ content.now }
    {
        HeldContent {
            place: Place::Shared(content),
        }
    }

    /// The content.
    pub fn get(&self) -> &Content
        ensures { result.now ≡ self.now }
    {
        match &self.place {
            Place::Own(content) => content,
            Place::Shared(content) => content,
        }
    }

    /// Its kind.
    pub fn kind(&self) -> MovedKind
        ensures { result ≡ kind_of self.now }
    {
        self.get().kind()
    }

    /// The content on its own.
    ///
    /// # Errors
    ///
    /// Want of memory, where it lies in a package.
    pub fn into_content(self) -> Result<Content, OutOfMemory>
        ensures { IfOk result (λ content. content ≡ self.entry) }
    {
        match self.place {
            Place::Own(content) => Ok(content),
            Place::Shared(content) => content.try_clone(),
        }
    }
}
