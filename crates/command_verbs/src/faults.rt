//! Why a verb says no command, as a line for people.
ghost use Rattle.std.specs.Prelude.{◌≡◌, IfOk, string_bytes};
ghost use Rattle.command_verbs.specs.Faults.{both_of, name_word, two_of, verb_line, verb_word};

use crate::names::NameFault;
use crate::verbs::VerbFault;
use std::alloc::{AllocError, Global};
use uuid::Uuid;

/// What is said of a word that names none, or two, of these.
fn name_word(fault: NameFault, none: &'static str, two: &'static str) -> &'static str
    ensures { result.now ≡ name_word fault none.now two.now }
{
    match fault {
        NameFault::Short => "refused: a name of fewer than four digits",
        NameFault::Unknown => none,
        NameFault::Two(_, _) => two,
    }
}

/// What is said of a fault, but for the two that a word may name.
fn verb_word(fault: &VerbFault) -> &'static str
    ensures { result.now ≡ verb_word fault.now }
{
    match fault {
        VerbFault::OutOfMemory => "refused: memory",
        VerbFault::Unnamed(fault) => {
            name_word(*fault, "refused: no such package", "refused: two packages")
        }
        VerbFault::Unfound(fault) => name_word(
            *fault,
            "refused: no such item",
            "refused: two items",
        ),
        VerbFault::BadArea => "refused: area",
        VerbFault::BadPlace => "refused: place",
        VerbFault::BadPoint => "refused: point",
        VerbFault::BadCode => "refused: code",
        VerbFault::BadType => "refused: type",
        VerbFault::NotLent => "refused: not lent",
        VerbFault::BadTicket => "refused: ticket",
        VerbFault::Apart => "refused: two packages hold them",
        VerbFault::Unrelated => "refused: no mapping",
    }
}

/// The two that a word may name, if that is why.
fn two_of(fault: NameFault) -> Option<(Uuid, Uuid)>
    ensures { result ≡ two_of fault }
{
    match fault {
        NameFault::Short | NameFault::Unknown => None,
        NameFault::Two(one, other) => Some((one, other)),
    }
}

/// The same of a verb's fault.
fn both_of(fault: &VerbFault) -> Option<(Uuid, Uuid)>
    ensures { result ≡ both_of fault.now }
{
    match fault {
        VerbFault::Unnamed(fault) => two_of(*fault),
        VerbFault::Unfound(fault) => two_of(*fault),
        _ => None,
    }
}

/// The line of a fault. Where a word may name two, both are told.
pub fn verb_line(alloc: Global, fault: &VerbFault) -> Result<String, AllocError>
    ensures { IfOk result (λ line. string_bytes line ≡ verb_line fault.now) }
{
    let word = verb_word(fault);
    match both_of(fault) {
        Some((one, other)) => format!(in alloc; "{word} {one} {other}\n"),
        None => format!(in alloc; "{word}\n"),
    }
}
