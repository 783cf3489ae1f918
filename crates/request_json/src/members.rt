//! The members of one JSON object, name by name.
ghost use Rattle.std.specs.Prelude.{◌≡◌, ◌↔◌, All, Any, IfOk, IfSome, IfNone, IsTrue, List, map};
ghost use Rattle.std.specs.Prelude.{option_map, ℕ};
ghost use Rattle.std.specs.Prelude.{string_bytes};
ghost use Rattle.std.specs.Option.{option_and_then};
ghost use Rattle.std.specs.BTreeMap.{keys};
ghost use Rattle.uuid.specs.Text.{parsed_hyphenated};
ghost use Rattle.serde_json.specs.View.{view};
ghost use Rattle.request_json.specs.Members.{HasNoOther, IsHexAt, IsOneOf, IsTextAt, number_member, text_member};
ghost use Rattle.sheet_types.specs.Texts.{kind_word, mapping_word, mode_word};
ghost use Rattle.sheet_types.specs.declared.command.Mapping.{Mapping};
ghost use Rattle.sheet_types.specs.declared.command.Mode.{Mode};
ghost use Rattle.sheet_types.specs.declared.receipt.MovedKind.{MovedKind};

use hex::FromHexError;
use serde_json::{Map, Value};
use sheet_types::collections::{Bytes, Text};
use sheet_types::command::{Mapping, Mode};
use sheet_types::error::OutOfMemory;
use sheet_types::reading::read_uuid;
use sheet_types::receipt::MovedKind;
use sheet_types::words::{read_kind, read_mapping, read_mode};
use std::alloc::Global;
use uuid::Uuid;

/// The text of the member of this name.
pub fn str_at<'a>(value: &'a Value, name: &str) -> Option<&'a str>
    ensures { option_map (λ text. text.now) result ≡ text_member (view value.now) name.now }
{
    value.get(name).and_then(Value::as_str)
}

/// The whole number of the member of this name, where it fits 64 bits with a sign.
pub fn number_at(value: &Value, name: &str) -> Option<i64>
    ensures { result ≡ number_member (view value.now) name.now }
{
    value.get(name).and_then(Value::as_i64)
}

/// The UUID of the member of this name, in the hyphenated form (RFC 9562, section 4).
pub fn uuid_at(value: &Value, name: &str) -> Option<Uuid>
    ensures { result ≡ option_and_then parsed_hyphenated (text_member (view value.now) name.now) }
{
    match str_at(value, name) {
        Some(text) => read_uuid(text),
        None => None,
    }
}

/// The bytes of the member of this name, in hexadecimal with an even number of digits in either case.
pub fn hex_at(alloc: Global, value: &Value, name: &str) -> Result<Option<Bytes>, OutOfMemory>
    ensures some { IfOk result (λ found. IfSome found (λ bytes. IsHexAt (view value.now) name.now bytes)) }
    ensures none { IfOk result (λ found. IfNone found ((bytes : List ℕ)
        → ¬ IsHexAt (view value.now) name.now bytes)) }
{
    let Some(text) = str_at(value, name) else {
        return Ok(None);
    };
    match hex::decode(alloc, text) {
        Ok(bytes) => Ok(Some(Bytes::from_vec(bytes))),
        Err(FromHexError::OutOfMemory) => Err(OutOfMemory),
        Err(_) => Ok(None),
    }
}

/// The text of the member of this name, copied.
pub fn text_at(alloc: Global, value: &Value, name: &str) -> Result<Option<Text>, OutOfMemory>
    ensures some { IfOk result (λ found. IfSome found (λ text. IsTextAt (view value.now) name.now text)) }
    ensures none { IfOk result (λ found. IfNone found ((text : List ℕ)
        → ¬ IsTextAt (view value.now) name.now text)) }
{
    match str_at(value, name) {
        Some(text) => Ok(Some(Text::from_string(text.to_string(alloc)?))),
        None => Ok(None),
    }
}

/// The kind that the member of this name is the word of.
pub fn kind_at(value: &Value, name: &str) -> Option<MovedKind>
    ensures some { IfSome result (λ kind. IsTextAt (view value.now) name.now (kind_word kind)) }
    ensures none { IfNone result ((kind : MovedKind) → ¬ IsTextAt (view value.now) name.now (kind_word kind)) }
{
    match str_at(value, name) {
        Some(text) => read_kind(text),
        None => None,
    }
}

/// The mapping table that it is the word of.
pub fn mapping_at(value: &Value, name: &str) -> Option<Mapping>
    ensures some { IfSome result (λ mapping. IsTextAt (view value.now) name.now (mapping_word mapping)) }
    ensures none { IfNone result ((mapping : Mapping) → ¬ IsTextAt (view value.now) name.now
        (mapping_word mapping)) }
{
    match str_at(value, name) {
        Some(text) => read_mapping(text),
        None => None,
    }
}

/// The mode of a split that it is the word of.
pub fn mode_at(value: &Value, name: &str) -> Option<Mode>
    ensures some { IfSome result (λ mode. IsTextAt (view value.now) name.now (mode_word mode)) }
    ensures none { IfNone result ((mode : Mode) → ¬ IsTextAt (view value.now) name.now (mode_word mode)) }
{
    match str_at(value, name) {
        Some(text) => read_mode(text),
        None => None,
    }
}

/// Whether a name is one of these.
fn is_among(names: &[&str], name: &str) -> bool
    ensures { IsTrue result ↔ Any (λ known. known.now ≡ name.now) names.now }
{
    names.iter().any(|known| *known == name)
}

/// Whether a name is one of these, as `HasNoOther` says it.
fn is_one_of(names: &[&str], name: &str) -> bool
    ensures { IsTrue result ↔ IsOneOf (map (λ known. known.now) names.now) name.now }
{
    is_among(names, name)
}

/// Whether each name of a member is one of these.
fn are_one_of(members: &Map<String, Value>, names: &[&str]) -> bool
    ensures { IsTrue result ↔ All (λ key. IsOneOf (map (λ known. known.now) names.now) (string_bytes key))
        (keys members.now) }
{
    members.keys().all(|key| is_one_of(names, key.as_str()))
}

/// Whether a value has no member but of these names.
pub fn has_no_other(value: &Value, names: &[&str]) -> bool
    ensures { IsTrue result ↔ HasNoOther (view value.now) (map (λ known. known.now) names.now) }
{
    match value.as_object() {
        Some(members) => are_one_of(members, names),
        None => true,
    }
}
