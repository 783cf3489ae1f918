//! Moments of requests.
ghost use Rattle.std.specs.Prelude.{◌≡◌, ◌<◌, ◌+◌, IsTrue, length};
ghost use Rattle.sheet_types.specs.Texts.{is_moment, fits_pattern, two_digits};

const PATTERN: &[u8; 24] = b"DDDD-DD-DDTDD:DD:DD.DDDZ";

/// Whether a text is a moment `YYYY-MM-DDTHH:MM:SS.sssZ`, which is a form of RFC 3339, 5.6, in UTC
/// and with milliseconds: month 01 to 12, day 01 to 31, hour 00 to 23, minute and second 00 to 59.
/// Lengths of months are not looked at (profile).
pub fn is_moment(text: &str) -> bool
    ensures { result ≡ is_moment text.now }
{
    let bytes = text.as_bytes();
    if !fits_pattern(PATTERN, bytes) {
        return false;
    }
    let month = two_digits(bytes, 5);
    let day = two_digits(bytes, 8);
    let hour = two_digits(bytes, 11);
    let minute = two_digits(bytes, 14);
    let second = two_digits(bytes, 17);
    1 <= month && month <= 12 && 1 <= day && day <= 31 && hour <= 23 && minute <= 59 && second <= 59
}

// Whether a text is as long as a pattern, with a digit at each `D` and the pattern's own byte elsewhere.
#[tactic(auto, using(crate::proofs::Patterns::other_length))]
fn fits_pattern(pattern: &[u8], text: &[u8]) -> bool
    ensures fits { result ≡ fits_pattern pattern.now text.now }
    ensures long { IsTrue result → length text.now ≡ length pattern.now }
{
    let [wanted, patterns @ ..] = pattern else {
        return text.is_empty();
    };
    let [byte, bytes @ ..] = text else {
        return false;
    };
    let fits = if *wanted == b'D' {
        b'0' <= *byte && *byte <= b'9'
    } else {
        *byte == *wanted
    };
    fits && fits_pattern(patterns, bytes)
}

// The number of two digits.
fn two_digits(text: &[u8], at: usize) -> u16
    requires { at + 1 < length text.now }
    ensures { result ≡ two_digits text.now at }
{
    let tens = text[at].saturating_sub(b'0');
    let ones = text[at + 1].saturating_sub(b'0');
    u16::from(tens) * 10 + u16::from(ones)
}
