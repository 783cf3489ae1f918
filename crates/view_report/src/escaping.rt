//! Foreign text in a page: it ends no element and no attribute, and turns nothing around that follows it.
ghost use Rattle.std.specs.Char.{encode_utf8};
ghost use Rattle.std.specs.Prelude.{◌≡◌, ◌++◌, IfOk, IsTrue, string_bytes};
ghost use Rattle.view_report.specs.Escaping.{control_picture, escaped, escaped_code, is_control, is_unseen};
ghost use Rattle.view_report.specs.Escaping.{moment_code, moment_text, raw_code, raw_text, shown_code};

use std::alloc::AllocError;

/// Whether a character is a control of ASCII.
fn is_control(code: u32) -> bool
    ensures { result ≡ is_control code }
{
    (code < 32) | (code == 127)
}

/// Whether a character is one that HTML does not allow, or one that turns the text behind it around.
fn is_unseen(code: u32) -> bool
    ensures { result ≡ is_unseen code }
{
    ((128 <= code) & (code <= 159))
        | ((8234 <= code) & (code <= 8238))
        | ((8294 <= code) & (code <= 8297))
        | ((64976 <= code) & (code <= 65007))
        | (65534 <= code % 65536)
}

/// The picture of a control, as U+241B of ESC.
fn control_picture(code: u32) -> u32
    requires { IsTrue (is_control code) }
    ensures { result ≡ control_picture code }
{
    if code == 127 { 9249 } else { 9216 + code }
}

/// A character as it is seen.
fn visible_letter(letter: char) -> char
    ensures { result ≡ shown_code letter }
{
    let code = letter as u32;
    if is_control(code) {
        char::from_u32(control_picture(code)).unwrap_or('\u{fffd}')
    } else if is_unseen(code) {
        '\u{fffd}'
    } else {
        letter
    }
}

/// Puts a character of foreign text.
fn put_letter(text: &mut String, letter: char) -> Result<(), AllocError>
    ensures { IfOk result (λ _. string_bytes text.new ≡ string_bytes text.old ++ escaped_code letter) }
{
    match letter {
        '&' => text.push_str("&amp;"),
        '<' => text.push_str("&lt;"),
        '>' => text.push_str("&gt;"),
        '"' => text.push_str("&quot;"),
        '\'' => text.push_str("&#39;"),
        _ => text.push(visible_letter(letter)),
    }
}

/// Puts foreign text, fit for the text of an element and for an attribute between double quotes.
///
/// # Errors
///
/// Want of memory.
pub fn put_escaped(text: &mut String, foreign: &str) -> Result<(), AllocError>
    ensures { IfOk result (λ _. string_bytes text.new ≡ string_bytes text.old ++ escaped foreign.now) }
{
    for letter in foreign.chars() {
        put_letter(text, letter)?;
    }
    Ok(())
}

/// Puts a character of text that is to be read byte for byte.
fn put_raw_letter(text: &mut String, letter: char) -> Result<(), AllocError>
    ensures { IfOk result (λ _. string_bytes text.new ≡ string_bytes text.old ++ raw_code letter) }
{
    match letter {
        '&' => text.push_str("&amp;"),
        '<' => text.push_str("&lt;"),
        '>' => text.push_str("&gt;"),
        _ => text.push(letter),
    }
}

/// Puts text that is to be read byte for byte: as it is, unless it has one of three letters that HTML reads.
///
/// # Errors
///
/// Want of memory.
pub fn put_raw(text: &mut String, raw: &str) -> Result<(), AllocError>
    ensures { IfOk result (λ _. string_bytes text.new ≡ string_bytes text.old ++ raw_text raw.now) }
{
    for letter in raw.chars() {
        put_raw_letter(text, letter)?;
    }
    Ok(())
}

/// Puts a character of a moment.
fn put_moment_letter(text: &mut String, letter: char) -> Result<(), AllocError>
    ensures { IfOk result (λ _. string_bytes text.new ≡ string_bytes text.old ++ moment_code letter) }
{
    match letter {
        'T' => text.push_str(" <span>"),
        'Z' => text.push_str("</span>"),
        _ => put_letter(text, letter),
    }
}

/// Puts a moment, its time apart from its day.
///
/// # Errors
///
/// Want of memory.
pub fn put_moment(text: &mut String, at: &str) -> Result<(), AllocError>
    ensures { IfOk result (λ _. string_bytes text.new ≡ string_bytes text.old ++ moment_text at.now) }
{
    for letter in at.chars() {
        put_moment_letter(text, letter)?;
    }
    Ok(())
}
