//! The numbers that names of files are.
use sheet_types::reading::read_number;
use std::alloc::{AllocError, Global};
use std::str::from_utf8;

/// The number of a name, from 0 on, in plain decimal and with this behind it.
fn number_of(name: &[u8], ending: &str) -> Option<i64> {
    let Ok(text) = from_utf8(name) else {
        return None;
    };
    let front = text.strip_suffix(ending)?;
    let number = read_number(front)?;
    if number < 0 {
        return None;
    }
    Some(number)
}

/// The numbers of names, each ended by a NUL, in order. Other names are passed over.
///
/// # Errors
///
/// Want of memory.
pub(crate) fn numbers_in(
    alloc: Global,
    names: &[u8],
    ending: &str,
) -> Result<Vec<i64>, AllocError> {
    let mut numbers = Vec::new(alloc);
    for name in names.split(|byte| *byte == 0) {
        if let Some(number) = number_of(name, ending) {
            numbers.push(number)?;
        }
    }
    numbers.sort()?;
    Ok(numbers)
}
