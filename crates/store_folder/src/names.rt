//! Which file is the store of which package, by its name alone.
ghost use Rattle.std.specs.Prelude.{◌≡◌, ◌≢◌, ◌==◌, ◌++◌, ◌∷◌, ℕ, List, IfOk, IfSome};
ghost use Rattle.std.specs.Prelude.{IfNone, codes, map, nat_eq};
ghost use Rattle.std.specs.Prelude.{string_bytes};
ghost use Rattle.std.specs.List.{slice_split, list_any, ends_with};
ghost use Rattle.sheet_types.specs.Lines.{IsUuid};
ghost use Rattle.sheet_types.specs.Texts.{uuid_text};
ghost use Rattle.store_folder.specs.Names.{file_name, path_text, names_in, is_package_file, HaveFiles, ArePackagesIn};

use std::alloc::{AllocError, Global};
use uuid::Uuid;

/// The name of the file of a package: its UUID in lower case and `.gpkg`.
pub fn file_name(alloc: Global, package: Uuid) -> Result<String, AllocError>
    ensures { IfOk result (λ name. string_bytes name ≡ file_name «package») }
{
    format!(in alloc; "{package}.gpkg")
}

/// The path of a file in a folder.
pub fn path_of(alloc: Global, folder: &str, name: &str) -> Result<String, AllocError>
    ensures { IfOk result (λ path. string_bytes path ≡ path_text folder.now name.now) }
{
    format!(in alloc; "{folder}/{name}")
}

/// Whether the name ends as those of packages do, whatever stands before.
pub fn is_package_file(name: &[u8]) -> bool
    ensures { result ≡ is_package_file name.now }
{
    name.ends_with(b".gpkg".as_slice())
}

/// The UUID of which these bytes are the text in lower case (RFC 9562, section 4).
fn uuid_of(text: &[u8]) -> Option<Uuid>
    ensures some { IfSome result (λ id. text.now ≡ uuid_text id) }
    ensures only { IfSome result (λ id. (other : List ℕ) → IsUuid other → text.now ≡ uuid_text other
        → id ≡ other) }
    ensures none { IfNone result ((id : List ℕ) → IsUuid id → text.now ≢ uuid_text id) }
{
    if text.len() != 36 {
        return None;
    }
    let Ok(id) = Uuid::try_parse_ascii(text) else {
        return None;
    };
    let mut buffer = Uuid::encode_buffer();
    if id.hyphenated().encode_lower(&mut buffer).as_bytes() == text {
        Some(id)
    } else {
        None
    }
}

/// The package whose file has this name; `None` of a name that no package's file has.
pub fn package_of(name: &[u8]) -> Option<Uuid>
    ensures some { IfSome result (λ id. name.now ≡ file_name id) }
    ensures only { IfSome result (λ id. (other : List ℕ) → IsUuid other → name.now ≡ file_name other
        → id ≡ other) }
    ensures none { IfNone result ((id : List ℕ) → IsUuid id → name.now ≢ file_name id) }
{
    match name.strip_suffix(b".gpkg".as_slice()) {
        Some(text) => uuid_of(text),
        None => None,
    }
}

/// The names that the bytes of an open folder hold, each ended by a NUL.
pub fn names_in(alloc: Global, bytes: &[u8]) -> Result<Vec<&[u8]>, AllocError>
    ensures { IfOk result (λ names. map (λ name. name.now) names.items ≡ names_in bytes.now) }
{
    bytes.split(|byte| *byte == 0).collect(alloc)
}

/// Whether one of the names ends as those of packages do.
pub fn holds_packages(names: &[&[u8]]) -> bool
    ensures { result ≡ list_any (λ name. is_package_file name.now) names.now }
{
    names.iter().any(|name| is_package_file(name))
}

/// The packages that have a file among these names, each once, in the order of their UUIDs.
pub fn packages_in(alloc: Global, names: &[&[u8]]) -> Result<Vec<Uuid>, AllocError>
    ensures { IfOk result (λ packages. ArePackagesIn (map (λ name. name.now) names.now) packages.items) }
{
    let mut packages = packages_among(alloc, names)?;
    packages.sort_unstable();
    packages.dedup();
    Ok(packages)
}

/// The same, in the order of the names.
fn packages_among(alloc: Global, names: &[&[u8]]) -> Result<Vec<Uuid>, AllocError>
    ensures { IfOk result (λ packages. HaveFiles (map (λ name. name.now) names.now) packages.items) }
{
    let mut packages = Vec::new(alloc);
    for name in names {
        if let Some(package) = package_of(name) {
            packages.push(package)?;
        }
    }
    Ok(packages)
}
