//! What is asked of the one live package that a request names: why it does not take a command, an
//! item of it, all that it holds, and what a command moves of it. All other members are left alone,
//! so the answers stand beside those of `asking`. An error is want of memory, or a store that
//! failed; all members are as they were.
ghost use Rattle.std.specs.Prelude.{◌≡◌, ◌<◌, [], ◌∷◌, IsTrue, Some, MatchOption, length, slice_get};
ghost use Rattle.sheet_types.specs.Matrix.{is_good_frame, first_row};
ghost use Rattle.sheet_types.specs.World.{Package, item_of, holdings};
ghost use Rattle.sheet_types.specs.Step.{moved};
ghost use Rattle.world_members.specs.Members.{AllRest};
ghost use Rattle.world_queries.specs.Asking.{AsksAll};
ghost use Rattle.world_members.specs.Laws.{ChangesOnePackage, package_of};
ghost use Rattle.world_members.specs.Reasons.{package_reasons};

use crate::judging::package_refusal;
use identity_register::look_ups::find;
use identity_register::one_by_one::holdings_by_size;
use package_tables::fault::Fault;
use sheet_types::command::{Command, Item, Relation};
use sheet_types::frame::Frame;
use sheet_types::receipt::Moved;
use sheet_types::refusal::Refusal;
use sqlite::Alter;
use std::alloc::Global;
use uuid::Uuid;
use world_members::members::Member;

/// Why the package of the member at a place and its frame do not take a command, if they do not.
pub fn refusal_at<S: Alter + Drop>(
    members: &mut Vec<Member<S>>,
    at: usize,
    frame: &Frame,
    command: &Command,
) -> Result<Option<Refusal>, Fault>
    requires within { at < length members.old.items }
    requires rests { AllRest S.Store members.old.items }
    requires good { IsTrue (is_good_frame frame.now) }
    ensures { AsksAll S.Store
        (λ w found. frame.now ≡ w.frame → (p : Package) → slice_get w.packages at ≡ Some p
        → found ≡ first_row (package_reasons w.frame p command.now))
        members.old.items members.new.items result }
{
    let member = &mut members[at];
    package_refusal(&mut member.conn, frame, command)
}

/// The item under an identity in the package of the member at a place.
pub fn item_at<S: Alter + Drop>(
    members: &mut Vec<Member<S>>,
    at: usize,
    identity: Uuid,
) -> Result<Option<Item>, Fault>
    requires within { at < length members.old.items }
    requires rests { AllRest S.Store members.old.items }
    ensures { AsksAll S.Store (λ w found. (p : Package) → slice_get w.packages at ≡ Some p
        → found ≡ item_of p identity)
        members.old.items members.new.items result }
{
    let member = &mut members[at];
    find(&mut member.conn, identity)
}

/// What a command that changes one package moves, which is one thing or, of a delete that finds no
/// item, none. The member at the place is of the package that the command names.
pub fn thing_moved<S: Alter + Drop>(
    members: &mut Vec<Member<S>>,
    at: usize,
    command: &Command,
) -> Result<Option<Moved>, Fault>
    requires within { at < length members.old.items }
    requires rests { AllRest S.Store members.old.items }
    ensures { AsksAll S.Store
        (λ w found. ChangesOnePackage command.now → slice_get w.packages at
        ≡ Some (holdings w (package_of command.now)) → MatchOption found (moved w command.now ≡ [])
        (λ m. moved w command.now ≡ m ∷ []))
        members.old.items members.new.items result }
{
    match command {
        Command::Add {
            identity,
            content,
            ..
        } => Ok(Some(Moved::of_content(*identity, content))),
        Command::Delete { identity, .. } => {
            let Some(item) = item_at(members, at, *identity)? else {
                return Ok(None);
            };
            Ok(Some(Moved::of_item(&item)))
        }
        Command::Link {
            mapping,
            base,
            other,
            ..
        }
        | Command::Unlink {
            mapping,
            base,
            other,
            ..
        } => {
            let relation = Relation::new(*mapping, *base, *other);
            Ok(Some(Moved::of_link(&relation)))
        }
        Command::Split { .. } | Command::Merge { .. } => Ok(None),
    }
}

/// The items of the package of the member at a place, by kind and identity, and its links, by mapping,
/// base and medium. Of a package of many bytes memory holds each content once.
pub fn holdings_at<S: Alter + Drop>(
    members: &mut Vec<Member<S>>,
    at: usize,
    alloc: Global,
) -> Result<(Vec<Item>, Vec<Relation>), Fault>
    requires within { at < length members.old.items }
    requires rests { AllRest S.Store members.old.items }
    ensures { AsksAll S.Store
        (λ w held. (p : Package) → slice_get w.packages at ≡ Some p → (held.0.items ≡ p.items)
        × (held.1.items ≡ p.links))
        members.old.items members.new.items result }
{
    let member = &mut members[at];
    let bytes = member.sums.bytes;
    holdings_by_size(&mut member.conn, alloc, bytes)
}
