//! The pages of `report`, and the drawing of `map`.
use crate::naming::package_given;
use clap::ArgMatches;
use command_folder::endings::Ending;
use command_words::statuses::{Outcome, What};
use program_output::options::text_of;
use program_words::kinds::is_paper;
use program_words::names::{names_for, print_unnamed};
use sheet_types::reading::read_uuid;
use std::io;
use view_page::pages::{Paper, report_for};

/// The page of a loan.
fn loan_paper(loan: &str) -> Result<Paper, Ending> {
    match read_uuid(loan) {
        Some(loan) => Ok(Paper::Loan(loan)),
        None => Err(Ending::Usual(Outcome::Refused(What::BadUuid))),
    }
}

/// What is asked of the register, by the word for a loan. Of a folder that does not open, the page
/// says why, whatever was asked.
fn paper_of(
    rt: &HostRuntime,
    name: &str,
    given: &ArgMatches<'_>,
    word: &str,
) -> Result<Paper, Ending> {
    if name == "map" {
        return Ok(Paper::Map);
    }
    if given.get_str("package").is_none() {
        return Ok(Paper::Whole);
    }
    match package_given(rt, given, word) {
        Ok(loan) => loan_paper(loan.as_str()),
        Err(Ending::Unopened(_)) => Ok(Paper::Whole),
        Err(ending) => Err(ending),
    }
}

/// Writes it with the names that people have for packages and items, and answers how that ended.
fn write_paper(rt: &HostRuntime, name: &str, given: &ArgMatches<'_>, word: &str) -> Ending {
    let paper = match paper_of(rt, name, given, word) {
        Ok(paper) => paper,
        Err(ending) => return ending,
    };
    let folder = text_of(given, "folder");
    match names_for(rt, folder, given, None) {
        Ok(names) => report_for(rt, folder, names, paper, &mut io::writer(rt)),
        Err(why) => print_unnamed(rt, &why),
    }
}

/// Writes a page or a drawing, where the command asks for one, and answers how that ended. A word
/// may name a loan, whose page is asked for.
pub fn print_paper(
    rt: &HostRuntime,
    name: &str,
    given: &ArgMatches<'_>,
    word: &str,
) -> Option<Ending> {
    if is_paper(name, given) {
        Some(write_paper(rt, name, given, word))
    } else {
        None
    }
}
