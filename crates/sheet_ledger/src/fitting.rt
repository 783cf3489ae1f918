//! Each UUID has sixteen bytes (RFC 9562, section 4) and each digest thirty-two, which no clause
//! can say of a type: a call gives the fact.
ghost use Rattle.std.specs.Prelude.{◌≡◌, true};
ghost use Rattle.sheet_types.specs.Lines.{IsUuid, is_bytes};

use uuid::Uuid;

/// A law: a UUID has sixteen bytes, since its text reads back as it. Changes nothing and takes no memory.
pub fn fits(id: Uuid)
    ensures { IsUuid id }
{
    let mut buffer = Uuid::encode_buffer();
    let _text = id.hyphenated().encode_lower(&mut buffer);
}

/// A law: a digest has thirty-two bytes. Changes nothing and takes no memory.
pub fn fits_digest(digest: &[u8; 32])
    ensures { is_bytes 32 digest.now ≡ true }
{
    let _bytes = digest.as_slice();
}
