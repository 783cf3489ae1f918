//! A tree of files `ZOOM/COLUMN/ROW.png`, added to a package, as a person names it.
use clap::ArgMatches;
use command_folder::endings::Ending;
use command_naming::trees::TreeWords;
use command_ordering::putting::put_tree_for;
use command_verbs::areas::Place;
use program_output::clock::NewIdentities;
use program_output::options::text_of;
use program_output::outputs::{end_verb, verb_output};
use program_output::streams::Output;
use program_words::filling::moment_given;
use program_words::hints::print_hint;
use program_words::tile_files::{Tree, find_files};

/// Adds the tiles of a tree in a folder. What comes nearest to a name that is none is told on standard error.
fn put_tree_in(
    rt: &HostRuntime,
    folder: &str,
    words: &TreeWords<'_>,
    directory: &str,
    places: &[Place],
    output: &mut Output<'_>,
) -> Ending {
    let mut tree = Tree::new(rt, directory, places.len());
    let (ending, hint) = put_tree_for(
        rt,
        folder,
        words,
        places,
        &mut tree,
        &mut NewIdentities { rt },
        &mut *output,
    );
    print_hint(rt, &hint);
    ending
}

/// Adds the tiles of a tree to a package.
pub(crate) fn put_tree(
    rt: &HostRuntime,
    given: &ArgMatches<'_>,
    words: &ArgMatches<'_>,
    package: &str,
) -> Ending {
    let directory = text_of(words, "directory");
    let at = match moment_given(rt, words) {
        Ok(at) => at,
        Err(ending) => return ending,
    };
    let places = match find_files(rt, directory) {
        Ok(places) => places,
        Err(ending) => return ending,
    };
    let mut output = verb_output(rt, words);
    let tree_words = TreeWords {
        package,
        at: at.as_str(),
        is_upward: words.get_flag("tms"),
    };
    let folder = text_of(given, "folder");
    let ending = put_tree_in(
        rt,
        folder,
        &tree_words,
        directory,
        places.as_slice(),
        &mut output,
    );
    end_verb(rt, &output, ending)
}
