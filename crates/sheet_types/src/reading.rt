//! Texts that are read: identities, numbers, frames.
ghost use Rattle.std.specs.Prelude.{◌≡◌, ◌≢◌, ◌∷◌, ◌++◌, [], ℤ, ℕ, List, IfSome, IfNone};
ghost use Rattle.std.specs.Prelude.{FitsSigned};
ghost use Rattle.std.specs.Int.{w64};
ghost use Rattle.std.specs.Fmt.{signed_decimal};
ghost use Rattle.uuid.specs.Text.{parsed_hyphenated};
ghost use Rattle.sheet_types.specs.Lines.{IsUuid};
ghost use Rattle.sheet_types.specs.Reading.{frame_text, optional_uuid_text, IsInRange};
ghost use Rattle.sheet_types.specs.Texts.{uuid_text};
ghost use Rattle.sheet_types.specs.declared.frame.Frame.{Frame};

use crate::frame::Frame;
use itoa::Buffer;
use uuid::Uuid;

/// The UUID of a text of exactly 36 bytes in the hyphenated form, digits in either case (RFC 9562, section 4).
#[tactic(auto, using(crate::proofs::UuidTexts::parsed_36, crate::proofs::UuidTexts::not_36))]
pub fn read_uuid(text: &str) -> Option<Uuid>
    ensures { result ≡ parsed_hyphenated text.now }
{
    if text.len() != 36 {
        return None;
    }
    match Uuid::parse_str(text) {
        Ok(id) => Some(id),
        Err(_) => None,
    }
}

/// The UUID of a stored text of 36 bytes, which is in lower case (RFC 9562, section 4); `None` of any other text.
pub fn read_stored_uuid(text: &str) -> Option<Uuid>
    ensures some { IfSome result (λ id. text.now ≡ uuid_text id) }
    ensures none { IfNone result ((id : List ℕ) → IsUuid id → text.now ≢ uuid_text id) }
{
    let Some(id) = read_uuid(text) else {
        return None;
    };
    let mut buffer = Uuid::encode_buffer();
    if id.hyphenated().encode_lower(&mut buffer) == text {
        Some(id)
    } else {
        None
    }
}

/// What a stored text says where the empty text stands for no UUID; `None` where it is neither that
/// nor a UUID in lower case.
pub fn read_stored_optional(text: &str) -> Option<Option<Uuid>>
    ensures some { IfSome result (λ id. text.now ≡ optional_uuid_text id) }
    ensures empty { IfNone result (text.now ≢ []) }
    ensures none { IfNone result ((id : List ℕ) → IsUuid id → text.now ≢ uuid_text id) }
{
    if text.is_empty() {
        return Some(None);
    }
    match read_stored_uuid(text) {
        Some(id) => Some(Some(id)),
        None => None,
    }
}

/// The number of a text in plain decimal: `0`, or an optional `-` and digits without a leading zero, within 64 bits.
#[tactic(auto, using(crate::proofs::NumberTexts::reads_back))]
pub fn read_number(text: &str) -> Option<i64>
    ensures some { IfSome result (λ number. text.now ≡ signed_decimal number) }
    ensures none { IfNone result ((number : ℤ) → FitsSigned w64 number → text.now ≢ signed_decimal number) }
{
    let Ok(number) = text.parse::<i64>() else {
        return None;
    };
    let mut digits = Buffer::new();
    if digits.format(number) == text {
        Some(number)
    } else {
        None
    }
}

// The number before the first comma, and what follows that comma.
fn next_number<'a>(text: &'a str) -> Option<(i64, &'a str)>
    ensures some { IfSome result (λ read. text.now ≡ signed_decimal read.0 ++ (44 ∷ read.1.now)) }
    ensures none { IfNone result ((number : ℤ) (rest : List ℕ) → FitsSigned w64 number
        → text.now ≢ signed_decimal number ++ (44 ∷ rest)) }
{
    let Some((front, rest)) = text.split_once(',') else {
        return None;
    };
    match read_number(front) {
        Some(number) => Some((number, rest)),
        None => None,
    }
}

/// The frame of a text of eleven numbers with single commas between them, in the order of the
/// fields; `None` of any other text. Whether the frame is good is not asked.
pub fn read_frame(text: &str) -> Option<Frame>
    ensures some { IfSome result (λ frame. text.now ≡ frame_text frame) }
    ensures none { IfNone result ((frame : Frame) → IsInRange frame → text.now ≢ frame_text frame) }
{
    let (srs_id, text) = next_number(text)?;
    let (min_x, text) = next_number(text)?;
    let (min_y, text) = next_number(text)?;
    let (max_x, text) = next_number(text)?;
    let (max_y, text) = next_number(text)?;
    let (tile_width, text) = next_number(text)?;
    let (tile_height, text) = next_number(text)?;
    let (first_zoom, text) = next_number(text)?;
    let (levels, text) = next_number(text)?;
    let (matrix_width, text) = next_number(text)?;
    let matrix_height = read_number(text)?;
    Some(Frame {
        srs_id,
        min_x,
        min_y,
        max_x,
        max_y,
        tile_width,
        tile_height,
        first_zoom,
        levels,
        matrix_width,
        matrix_height,
    })
}
