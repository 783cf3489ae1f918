//! The box of a loan, by its words.
use clap::ArgMatches;
use command_verbs::points::read_box;
use program_output::options::text_of;
use sheet_types::frame::Ground;
use sheet_types::reading::read_number;

/// The box of these words, and the zoom of the command's; `None` where one of their numbers is none.
pub fn box_of(given: &ArgMatches<'_>, words: &str) -> Option<(Ground, i64)> {
    let ground = read_box(words)?;
    let zoom = read_number(text_of(given, "zoom"))?;
    Some((ground, zoom))
}
