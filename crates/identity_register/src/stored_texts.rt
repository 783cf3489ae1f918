//! Texts that a package stores, read back.
ghost use Rattle.std.specs.Prelude.{◌≡◌, ◌≢◌, ℕ, List, IfOk, IfErr};
ghost use Rattle.sheet_types.specs.Lines.{IsUuid};
ghost use Rattle.sheet_types.specs.Texts.{uuid_text};

use crate::fitting::fits;
use package_tables::fault::Fault;
use sheet_types::reading::read_stored_uuid;
use uuid::Uuid;

/// The UUID of a stored text, which is in lower case (RFC 9562, section 4); a fault of any other text.
pub fn stored_uuid(text: &str) -> Result<Uuid, Fault>
    ensures text { IfOk result (λ id. text.now ≡ uuid_text id) }
    ensures fit { IfOk result IsUuid }
    ensures none { IfErr result (λ _. (id : List ℕ) → IsUuid id → text.now ≢ uuid_text id) }
{
    let Some(id) = read_stored_uuid(text) else {
        return Err(Fault::StoreFault);
    };
    fits(id);
    Ok(id)
}
