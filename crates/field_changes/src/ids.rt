//! Identities that a text gives, so that one ticket of a package has one list of one file.
ghost use Rattle.std.specs.Prelude.{◌≡◌, IfOk, string_bytes};
ghost use Rattle.field_changes.specs.Ids.{derived, item_text, request_text, request_of};

use sha2::{Digest, Sha256};
use sheet_types::collections::Text;
use sheet_types::command::{Command, Content, Request};
use sheet_types::error::OutOfMemory;
use sheet_types::fingerprints::{Spelled, fingerprint};
use sheet_types::lines::line;
use std::alloc::{AllocError, Global};
use uuid::Uuid;

/// The UUID of a text: version 8 (RFC 9562, 5.8), of the first 16 bytes of its SHA-256.
pub fn derive_uuid(text: &str) -> Uuid
    ensures { result ≡ derived text.now }
{
    let mut hasher = Sha256::new();
    hasher.update(text);
    let digest = hasher.finalize();
    let mut bytes = [0u8; 16];
    bytes.copy_from_slice(&digest[..16]);
    Uuid::new_v8(bytes)
}

// What the identity of a new item comes from.
fn item_text(
    alloc: Global,
    package: Uuid,
    ticket: u64,
    copy: u64,
    content: &Content,
) -> Result<String, AllocError>
    ensures { IfOk result (λ text. string_bytes text ≡ item_text «package» ticket copy content.now) }
{
    let digits = Spelled(fingerprint(content));
    format!(in alloc; "sheetdesk item {package} {ticket} {copy} {digits}")
}

/// The identity of a new item of a package at a ticket, before which so many new ones of its content stand.
///
/// # Errors
///
/// Want of memory.
pub fn new_identity(
    alloc: Global,
    package: Uuid,
    ticket: u64,
    copy: u64,
    content: &Content,
) -> Result<Uuid, OutOfMemory>
    ensures { IfOk result (λ id. id ≡ derived (item_text «package» ticket copy content.now)) }
{
    let text = item_text(alloc, package, ticket, copy, content)?;
    Ok(derive_uuid(text.as_str()))
}

// What the identity of a request comes from.
fn request_text(
    alloc: Global,
    package: Uuid,
    ticket: u64,
    words: &str,
) -> Result<String, AllocError>
    ensures { IfOk result (λ text. string_bytes text ≡ request_text «package» ticket words.now) }
{
    format!(in alloc; "sheetdesk request {package} {ticket} {words}")
}

/// What requests have in common: the package and its ticket, and the moment.
#[derive(Clone, Copy)]
pub struct Asker<'a> {
    pub package: Uuid,
    pub ticket: u64,
    pub at: &'a str,
}

impl<'a> Asker<'a> {
    /// The request for a command.
    ///
    /// # Errors
    ///
    /// Want of memory.
    pub fn ask(&self, alloc: Global, command: Command) -> Result<Request, OutOfMemory>
        ensures { IfOk result (λ request. request ≡ request_of self.now.package self.now.ticket self.now.at.now
            command) }
    {
        let words = line(alloc, &command)?;
        let text = request_text(alloc, self.package, self.ticket, words.as_str())?;
        let at = Text::from_string(self.at.to_string(alloc)?);
        Ok(Request {
            id: derive_uuid(text.as_str()),
            at,
            command,
        })
    }
}
