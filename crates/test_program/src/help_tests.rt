// What `--help` says.
use clap::Error;
use command_help::words::sheetdesk;
use std::alloc::Global;
use std::test::Fail;
use test_lists::{FIRST_TILE, HEADER};

// What the program answers these words with, and the status.
fn answer(alloc: Global, words: &[&str]) -> Result<(String, i32), Error> {
    match sheetdesk(alloc)?.try_get_matches_from(words) {
        Ok(_) => Ok((String::new(alloc), 1)),
        Err(error) => Ok((format!(in alloc; "{error}")?, error.exit_code())),
    }
}

// Whether a text has this line, apart from spaces around it.
fn has_line(text: &str, wanted: &str) -> bool {
    text.lines().any(|line| line.trim() == wanted)
}

// The first of these lines that the help has not.
fn missing<'a>(alloc: Global, words: &[&str], wanted: &[&'a str]) -> &'a str {
    let Ok((text, 0)) = answer(alloc, words) else {
        return "an answer";
    };
    for line in wanted {
        if !has_line(text.as_str(), line) {
            return line;
        }
    }
    ""
}

#[test]
fn the_help_of_the_program_and_of_a_rehearsal(rt: HostRuntime) -> Result<(), Fail> {
    let of_all = [
        "Lends sheets of a map archive and brings them home, each request with a receipt",
        "Usage: sheetdesk <COMMAND>",
        "archive  the package that all others are lent from",
        "loan     a package that a split took out of another, and that a merge brings home",
        "0  done; of a list too of which requests were refused",
        "2  the command line is no use of the program",
    ];
    let of_rehearsal = [
        "Usage: sheetdesk rehearse [OPTIONS] --archive <UUID> --at <AT> --frame <FRAME>",
        HEADER,
        FIRST_TILE,
        "1,90000000-0000-4000-8000-000000000001,1,0",
        "1  an option or the list was refused: `refused: uuid`, `at`, `frame`, `number`",
        "POST /requests                 a request, an object with the fields above that its command uses;",
        "sheetdesk rehearse --serve 8080 --count 2 --archive a0000000-0000-4000-8000-000000000000 \\",
        "curl http://127.0.0.1:8080/packages",
    ];
    let a = rt.alloc();
    assert_eq!(rt; missing(a, &["sheetdesk", "--help"], of_all.as_slice()), "");
    let words = ["sheetdesk", "rehearse", "--help"];
    assert_eq!(rt; missing(a, words.as_slice(), of_rehearsal.as_slice()), "");
    Ok(())
}
