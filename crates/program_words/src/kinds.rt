//! Which kind of command a name and its words ask for.
use clap::ArgMatches;

/// Whether a command is a verb, which makes one request.
pub fn is_verb(name: &str) -> bool {
    matches!(name, "put" | "lend" | "return" | "join" | "part")
}

/// Whether a command brings an edited file home, or shows what that changes.
pub fn is_bringing(name: &str) -> bool {
    matches!(name, "changes" | "bring")
}

/// Whether all zooms are asked for with marks and names, and not one zoom.
fn is_drawing(name: &str, given: &ArgMatches<'_>) -> bool {
    name == "map" && given.get_str("zoom").is_none()
}

/// Whether a command asks for a page or a drawing.
pub fn is_paper(name: &str, given: &ArgMatches<'_>) -> bool {
    name == "report" || is_drawing(name, given)
}

/// The file for which a command asks for a QGIS project, if it does.
pub fn project_file<'m>(name: &str, given: &ArgMatches<'m>) -> Option<&'m str> {
    if name == "export" {
        given.get_str("qgis")
    } else {
        None
    }
}

/// Whether a desk carries out this command. It does those that look or only show, and those of one request.
pub fn is_served(name: &str, given: &ArgMatches<'_>) -> bool {
    match name {
        "put" => match given.subcommand() {
            Some((kind, _)) => kind != "tiles",
            None => false,
        },
        "bring" | "drop" => given.get_flag("dry-run"),
        "status"
        | "log"
        | "explain"
        | "receipt"
        | "manifest"
        | "export"
        | "map"
        | "report"
        | "audit"
        | "get"
        | "apply"
        | "changes"
        | "tidy" => true,
        _ => is_verb(name),
    }
}
