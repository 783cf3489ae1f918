//! Responses with a body: a status line, three fields, an empty line, and the body (RFC 9112).
ghost use Rattle.std.specs.Prelude.{◌≡◌, IfOk, string_bytes};
ghost use Rattle.desk_replies.specs.Responses.{conflict_response, good_response, manifest_response, receipt_response};
ghost use Rattle.desk_replies.specs.Responses.{response, response_head};

use crate::bodies::{receipt_body, refusal_body};
use http::StatusCode;
use sheet_types::error::OutOfMemory;
use sheet_types::receipt::Receipt;
use sheet_types::refusal::Refusal;
use std::alloc::{AllocError, Global};

/// The status line and the fields.
fn response_head(
    alloc: Global,
    status: StatusCode,
    phrase: &str,
    kind: &str,
    size: usize,
) -> Result<String, AllocError>
    ensures { IfOk result (λ head. string_bytes head ≡ response_head status phrase.now kind.now size) }
{
    let code = status.as_u16();
    format!(in alloc;
        "HTTP/1.1 {code} {phrase}\r\ncontent-type: {kind}\r\ncontent-length: {size}\r\nconnection: close\r\n\r\n"
    )
}

/// A response with this body.
fn response(
    alloc: Global,
    status: StatusCode,
    phrase: &str,
    kind: &str,
    body: &[u8],
) -> Result<Vec<u8>, OutOfMemory>
    ensures { IfOk result (λ bytes. bytes.items ≡ response status phrase.now kind.now body.now) }
{
    let head = response_head(alloc, status, phrase, kind, body.len())?;
    let mut bytes = head.into_bytes();
    bytes.extend_from_slice(body)?;
    Ok(bytes)
}

/// The response where all is well, with this JSON.
pub fn good_response(alloc: Global, body: &[u8]) -> Result<Vec<u8>, OutOfMemory>
    ensures { IfOk result (λ bytes. bytes.items ≡ good_response body.now) }
{
    response(alloc, StatusCode::OK, "OK", "application/json", body)
}

/// The response with a manifest, which is CSV.
pub fn manifest_response(alloc: Global, manifest: &[u8]) -> Result<Vec<u8>, OutOfMemory>
    ensures { IfOk result (λ bytes. bytes.items ≡ manifest_response manifest.now) }
{
    response(alloc, StatusCode::OK, "OK", "text/csv", manifest)
}

/// The response with a receipt.
pub fn receipt_response(alloc: Global, receipt: &Receipt) -> Result<Vec<u8>, OutOfMemory>
    ensures { IfOk result (λ bytes. bytes.items ≡ receipt_response receipt.now) }
{
    let body = receipt_body(alloc, receipt)?;
    good_response(alloc, body.as_bytes())
}

/// The response to a request that is refused by the rules.
pub fn conflict_response(alloc: Global, why: &Refusal) -> Result<Vec<u8>, OutOfMemory>
    ensures { IfOk result (λ bytes. bytes.items ≡ conflict_response why.now) }
{
    let body = refusal_body(alloc, why)?;
    response(
        alloc,
        StatusCode::CONFLICT,
        "Conflict",
        "application/json",
        body.as_bytes(),
    )
}
