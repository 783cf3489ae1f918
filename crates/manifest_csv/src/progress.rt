//! Who is told how far an import is.
ghost use Rattle.std.specs.Prelude.{◌≡◌, List, ◌∷◌, [], Option, None};
ghost use Rattle.manifest_csv.specs.Progress.{Tells, Told};

use sheet_types::receipt::Receipt;
use sheet_types::refusal::Refusal;

/// Is told how many of how many requests of an import are done.
pub trait Teller {
    /// What it was told so far, where that is known.
    ghost told: { Self → Option (List Told) };

    /// Of `all` requests so many are done: carried out, and their lines written. This came of the last of them.
    fn tell(&mut self, done: u64, all: u64, reply: &Result<Receipt, Refusal>)
        ensures { Tells (told self.old) (told self.new) ((done, (all, reply.now)) ∷ []) };
}

/// Tells nobody.
#[derive(Clone, Copy, PartialEq, Eq)]
pub struct Silent;

impl Teller for Silent {
    ghost told = { λ _. None };

    fn tell(&mut self, _done: u64, _all: u64, _reply: &Result<Receipt, Refusal>)
        ensures told { Tells None None ((_done, (_all, _reply.now)) ∷ []) }
        ensures same { self.new ≡ self.old }
    {}
}
