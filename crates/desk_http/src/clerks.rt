//! Who carries out the commands of a command line at a desk.
ghost use Rattle.std.specs.Prelude.{◌≡◌, ℕ, List, [], Option, IfNone, IfSome, ⊤};
ghost use Rattle.desk_http.specs.Connections.{IsServedBy};

use sqlite::Alter;
use std::io::Write;
use store_shelf::shelf::Shelf;
use world::world::World;

/// Carries out what the words of a command line ask for. It makes of the world what one request makes of it, at most.
pub trait Clerk {
    // The word that whoever asks has to show. An empty one is nobody's.
    ghost key_of: { Self → List ℕ };

    // It was asked once, with this body, between these two states; a writer had the first and has the second. Each
    // clerk says what that is. A desk knows nothing of it but that `attend` does it, so where it promises this of a
    // body it asked once, with that body and for that writer.
    ghost attends: { List ℕ → Option (List ℕ) → Option (List ℕ) → Self → Self → Type 0 };

    /// The word that whoever asks has to show; `None` where there is no clerk.
    fn key(&self) -> Option<&[u8]>
        ensures some { IfSome result (λ key. key.now ≡ key_of self.now) }
        ensures none { IfNone result (key_of self.now ≡ []) };

    /// Reads what a body asks, carries it out, and writes what comes of it.
    fn attend<S: Alter + Drop, H: Shelf<S>, W: Write>(
        &mut self,
        world: &mut World<S>,
        shelf: &mut H,
        body: &[u8],
        writer: &mut W,
    )
        ensures served { IsServedBy S.Store 1 world.old world.new }
        ensures attends { attends body.now (W.contents writer.old) (W.contents writer.new) self.old self.new };
}

/// No clerk: nobody is let in.
#[derive(Clone, Copy, PartialEq, Eq)]
pub struct NoClerk;

impl Clerk for NoClerk {
    ghost key_of = { λ _. [] };

    ghost attends = { λ body held holds clerk next. ⊤ };

    fn key(&self) -> Option<&[u8]> {
        None
    }

    fn attend<S: Alter + Drop, H: Shelf<S>, W: Write>(
        &mut self,
        world: &mut World<S>,
        shelf: &mut H,
        body: &[u8],
        writer: &mut W,
    ) {}
}
