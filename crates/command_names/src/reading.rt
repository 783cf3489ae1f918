//! Which words can begin the text of a UUID.
ghost use Rattle.std.specs.Prelude.{◌≡◌, ◌≤◌, ℕ};
ghost use Rattle.command_names.specs.Reading.{can_begin, fits, fits_at};

/// Whether a character can stand at a place of the text of a UUID: a hyphen at four places, else a hexadecimal digit.
fn fits_at(at: usize, byte: u8) -> bool
    ensures { result ≡ fits_at at byte }
{
    match at {
        8 | 13 | 18 | 23 => byte == b'-',
        _ => at < 36 && byte.is_ascii_hexdigit(),
    }
}

/// Whether each of these characters can stand at its place, the first at this one.
fn fits(at: usize, word: &[u8]) -> bool
    ensures { result ≡ fits at word.now }
{
    let [byte, bytes @ ..] = word else {
        return true;
    };
    fits_at(at, *byte) && fits(at + 1, bytes)
}

/// Whether a word can begin the text of a UUID, and has the four characters that a name has at least.
pub fn can_begin(word: &str) -> bool
    ensures { result ≡ can_begin word.now }
{
    4 <= word.len() && fits(0, word.as_bytes())
}
