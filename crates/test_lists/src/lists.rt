//! Request lists and their records, and the manifest that one of them makes, written out by hand;
//! the digest is Python's `hashlib`.

use std::alloc::{AllocError, Global};

/// The first line of every list, without its end.
pub const HEADER: &str =
    "request,at,command,package,identity,other,kind,zoom,column,row,last_column,last_row,x,y,code,ticket,text,data";

/// The addition of a first tile.
pub const FIRST_TILE: &str =
    "90000000-0000-4000-8000-000000000001,2024-05-01T08:00:00.000Z,add,a0000000-0000-4000-8000-000000000000,00000000-0000-4000-8000-000000000001,,tile,2,3,3,,,,,,,,41";

/// A record of eighteen fields that names no command.
pub const NO_REQUEST: &str = ",,,,,,,,,,,,,,,,,";

/// A record of seventeen fields.
pub const SEVENTEEN: &str = ",,,,,,,,,,,,,,,,";

/// The manifest of an archive that the first tile alone came into: a header of 67 bytes and a record of 116.
pub const MANIFEST_OF_THE_FIRST: &str =
    "kind,identity,other,zoom,column,row,x,y,code,size,fingerprint,text\ntile,00000000-0000-4000-8000-000000000001,,2,3,3,,,,1,b363ee0ecc9cf61b12ecdafd75dca2779729b4fcc5f1bd718c33aad2c94af4f8,\n";

/// The header and these records, each ended by `end`.
pub fn list_ended(alloc: Global, end: &str, records: &[&str]) -> Result<String, AllocError> {
    let mut text = String::from_str(alloc, HEADER)?;
    text.push_str(end)?;
    for record in records {
        text.push_str(record)?;
        text.push_str(end)?;
    }
    Ok(text)
}

/// The header and these records, each ended by LF.
pub fn list(alloc: Global, records: &[&str]) -> Result<String, AllocError> {
    list_ended(alloc, "\n", records)
}
