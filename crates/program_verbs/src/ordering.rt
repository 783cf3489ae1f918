//! A verb, carried out as an order over the bytes of a file.
use clap::ArgMatches;
use command_folder::endings::{Ending, FAILED};
use command_ordering::ordering::hint_order_for;
use command_ordering::orders::Purpose;
use command_requests::orders::Order;
use program_orders::purposes::purpose_of;
use program_orders::verbs::verb_of;
use program_output::options::text_of;
use program_output::outputs::{end_verb, verb_output};
use program_output::printing::tell_lack;
use program_output::streams::{Input, Output};
use program_words::filling::given_or_new;
use program_words::hints::print_hint;
use program_words::names::Named;
use std::fs;

/// Has an order done in a folder, over what is read.
fn order_in(
    rt: &HostRuntime,
    folder: &str,
    order: &Order<'_>,
    purpose: Purpose,
    reader: &mut Input<'_>,
    output: &mut Output<'_>,
) -> Ending {
    let (ending, hint) = hint_order_for(rt, folder, order, purpose, reader, &mut *output);
    print_hint(rt, &hint);
    ending
}

/// The same, over the bytes of a file; of `-` those of the reader, and of no file none.
fn order_over(
    rt: &HostRuntime,
    folder: &str,
    order: &Order<'_>,
    purpose: Purpose,
    file: Option<&str>,
    reader: &mut Input<'_>,
    output: &mut Output<'_>,
) -> Ending {
    let Some(path) = file else {
        return order_in(rt, folder, order, purpose, &mut Input::File(b""), output);
    };
    if path == "-" {
        return order_in(rt, folder, order, purpose, reader, output);
    }
    match fs::read(rt, path) {
        Ok(bytes) => order_in(
            rt,
            folder,
            order,
            purpose,
            &mut Input::File(bytes.as_slice()),
            output,
        ),
        Err(error) => tell_lack(rt, path, &error, Ending::BadBody),
    }
}

/// Carries out the verb of a command, whose options stand among these words.
fn carry_out_with<'m>(
    rt: &HostRuntime,
    name: &str,
    given: &ArgMatches<'m>,
    options: &ArgMatches<'m>,
    named: &'m Named,
    reader: &mut Input<'_>,
) -> Ending {
    let (id, identity, at) = match given_or_new(rt, options) {
        Ok(found) => found,
        Err(ending) => return ending,
    };
    let Some(verb) = verb_of(name, given, named, identity) else {
        return FAILED;
    };
    let order = Order {
        id,
        at: at.as_str(),
        verb,
    };
    let folder = text_of(given, "folder");
    let purpose = purpose_of(options);
    let file = options.get_str("file");
    let mut output = verb_output(rt, options);
    let ending = order_over(rt, folder, &order, purpose, file, reader, &mut output);
    end_verb(rt, &output, ending)
}

/// Carries out the verb of a command. Its options stand behind the kind of what is put, where there is one.
pub(crate) fn carry_out_verb<'m>(
    rt: &HostRuntime,
    name: &str,
    given: &ArgMatches<'m>,
    named: &'m Named,
    reader: &mut Input<'_>,
) -> Ending {
    match given.subcommand() {
        Some((_, words)) => carry_out_with(rt, name, given, words, named, reader),
        None => carry_out_with(rt, name, given, given, named, reader),
    }
}
