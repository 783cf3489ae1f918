//! Each UUID has sixteen bytes (RFC 9562, section 4), which no clause can say of a type: a call gives the fact.
ghost use Rattle.std.specs.Prelude.{◌≡◌, true};
ghost use Rattle.sheet_types.specs.Lines.{IsUuid};
ghost use Rattle.identity_register.specs.Reads.{is_fit_end};

use uuid::Uuid;

/// A law: a UUID has sixteen bytes, since its text reads back as it. Changes nothing and takes no memory.
pub fn fits(id: Uuid)
    ensures { IsUuid id }
{
    let mut buffer = Uuid::encode_buffer();
    let _text = id.hyphenated().encode_lower(&mut buffer);
}

/// The law of one that may be missing: it has sixteen bytes where it is there.
pub fn fits_if_there(id: Option<Uuid>)
    ensures { is_fit_end id ≡ true }
{
    if let Some(id) = id {
        fits(id);
    }
}
