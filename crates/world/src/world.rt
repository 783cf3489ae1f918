//! An archive and its loans, and what requests make of them.
ghost use Rattle.std.specs.Prelude.{◌≡◌, ◌⊎◌, ◌≤◌, ◌↔◌, true, false, Err, IfOk, OnErr, IsTrue};
ghost use Rattle.sqlite.specs.Held.{state};
ghost use Rattle.sqlite.specs.State.{HasCleanDisk};
ghost use Rattle.sheet_types.specs.Step.{IsFault};
ghost use Rattle.sheet_types.specs.Matrix.{is_good_frame};
ghost use Rattle.sheet_types.specs.Refuse.{greatest_receipts};
ghost use Rattle.sheet_types.specs.World.{new_world};
ghost use Rattle.store_sql.specs.Blank.{IsBlank, no_schema};
ghost use Rattle.world.specs.Creating.{IsCreatedOrRefused, HasRoom};
ghost use Rattle.world_members.specs.Members.{AllRest, AllClean, AllOpen, AllMadeAt};
ghost use Rattle.sheet_types.specs.declared.refusal.Refusal.TheVariants.{StoreFault};
ghost use Rattle.sqlite_disk.specs.Disk.{MoreFaults};
ghost use Rattle.world.specs.Worlds.{IsAccepted, IsHeld, IsRun, IsStep, LeavesNoTrace, StandsFor, StandsBeside};
ghost use Rattle.world.specs.Worlds.{StandsStill, seen_of};
ghost use Rattle.world.specs.Asked.{IsStepWith, IsRunWith};

use crate::applying::serve;
use crate::creating::{CreateFault, archive_alone};
use matrix_rules::check::FrameRules;
use sheet_types::command::Request;
use sheet_types::error::OutOfMemory;
use sheet_types::frame::Frame;
use sheet_types::moments::is_moment;
use sheet_types::receipt::Receipt;
use sheet_types::refusal::Refusal;
use sqlite::{Alter, Connection};
use std::alloc::Global;
use std::marker::Model;
use store_shelf::shelf::Shelf;
use uuid::Uuid;
use world_known::known::Known;
use world_members::members::Member;
use world_members::reserving::{push_reserved, room_for_one};

/// An archive and its loans: their stores, all of them open, with what is kept of each so that
/// nothing is counted again.
#[derive(Drop)]
pub struct World<S: Alter + Drop> {
    pub(crate) frame: Frame,
    pub(crate) members: Vec<Member<S>>,
    pub(crate) count: u64,
    pub(crate) has_failed: bool,
    // The stores of children that a split which failed left; a world that can be used has none. The
    // list has room for the stores of all members too, so that all can be handed out without
    // memory.
    pub(crate) strays: Vec<Connection<S>>,
    // The UUIDs that receipts name, so that no store is asked of a new one.
    pub(crate) known: Known,
}

impl<S: Alter + Drop> Model for World<S> {
    ghost use Rattle.world.specs.Worlds.{Seen, seen_code, IsHeld};
    ghost use Rattle.world.specs.Creating.{HasRoomFor};

    ghost Value = { Seen S };

    ghost coded = { seen_code S.code };

    ghost view = { λ w. record {
      frame = w.frame;
      members = w.members.items;
      count = w.count;
      has_failed = w.has_failed;
      strays = w.strays.items;
      known = w.known;
    } };

    ghost invariant = { λ w. IsHeld S.Store (record {
      frame = w.frame;
      members = w.members.items;
      count = w.count;
      has_failed = w.has_failed;
      strays = w.strays.items;
      known = w.known;
    })
        × HasRoomFor w.members.items w.strays };
}

impl<S: Alter + Drop> World<S> {
    /// The world of an archive alone, with nothing in it, in a store that is blank where its disk
    /// is clean, as one over new files is. The moment is that of its making.
    ///
    /// # Errors
    ///
    /// The first rule that the frame breaks, or else a text that is no moment; or, in place of a
    /// world, want of memory or a store that failed. The connection is dropped then.
    pub fn create(
        alloc: Global,
        conn: Connection<S>,
        archive: Uuid,
        at: &str,
        frame: &Frame,
    ) -> Result<World<S>, CreateFault>
        requires blank { HasCleanDisk (state S.Store conn) → IsBlank no_schema (state S.Store conn).now }
        ensures made { IfOk result (λ world. AllClean S.Store world.members
            → StandsFor S.Store world (new_world archive frame.now)) }
        ensures dated { IfOk result (λ world. AllClean S.Store world.members
            → AllMadeAt S.Store frame.now at.now world.members) }
        ensures opens { IfOk result (λ world. AllClean S.Store world.members → AllOpen S.Store world.members) }
        ensures clean { IfOk result (λ world. AllClean S.Store world.members → HasCleanDisk (state S.Store conn)) }
        ensures usable { IfOk result (λ world. world.has_failed ≡ false) }
        ensures refused { IsCreatedOrRefused frame.now at.now result }
    {
        // Whoever read the two from words has judged them already; a `Frame` and a `&str` do not
        // say so, and once for a world is little.
        if let Err(broken) = frame.check() {
            return Err(CreateFault::BadFrame(broken));
        }
        if !is_moment(at) {
            return Err(CreateFault::BadText);
        }
        let room = room_for_one(alloc)?;
        let members = archive_alone(alloc, conn, archive, at, frame)?;
        Ok(World {
            frame: *frame,
            members,
            count: 0,
            has_failed: false,
            strays: room,
            known: Known::new(alloc),
        })
    }

    /// The world that members stand for, in the order of their UUIDs, with so many receipts, where
    /// all that these name is known; each member's store is at rest. That they stand for it may
    /// rest on the disks of other stores too. The list that is handed in has room for the stores of
    /// all members, so this takes no memory.
    pub fn from_members(
        frame: Frame,
        members: Vec<Member<S>>,
        count: u64,
        room: Vec<Connection<S>>,
        known: Known,
    ) -> World<S>
        requires rests { AllRest S.Store members.items }
        requires good { IsTrue (is_good_frame frame) }
        requires counted { count ≤ greatest_receipts }
        requires room { HasRoom members.items room }
        requires stands { StandsBeside S.Store (seen_of frame members.items count known) }
        ensures { result ≡ seen_of frame members.items count known }
    {
        World {
            frame,
            members,
            count,
            has_failed: false,
            strays: room,
            known,
        }
    }

    /// The frame of all packages.
    pub fn frame(&self) -> Frame
        ensures { result ≡ self.now.frame }
    {
        self.frame
    }

    /// Whether the world has failed: from then on it answers `StoreFault` to every request. Whoever
    /// asks also learns what each world keeps.
    pub fn has_failed(&self) -> bool
        ensures told { result ≡ self.now.has_failed }
        ensures held { IsHeld S.Store self.now }
    {
        self.has_failed
    }

    /// Carries one request out, or tells why not. A request that comes again, with its line, gets
    /// the receipt that it got, and nothing is changed.
    ///
    /// The shelf gives the store of the package that a split makes. It is asked for no other, once
    /// at most, and for none that a package of the world has. After the commit of a merge it is
    /// given back the store of the child, and no other. Where a split fails, a store is given back
    /// to it as that of the child, unless the world has failed: then a store is among the strays.
    ///
    /// # Errors
    ///
    /// The first reason that holds, or, in place of any reply, want of memory, a store that failed,
    /// or a shelf that had none. Nothing is changed then. The world has failed after any
    /// `StoreFault` but one of the shelf, and after a commit of a receipt that answered any error;
    /// after a receipt or a refusal it is as usable as before.
    pub fn apply<H: Shelf<S>>(
        &mut self,
        alloc: Global,
        request: &Request,
        shelf: &mut H,
    ) -> Result<Receipt, Refusal>
        ensures step { IsStep S.Store request.now self.old result self.new }
        ensures uses { IsStepWith S.Store H.asks H.takes H.failures_of request.now self.old result self.new shelf.old
            shelf.new }
        ensures still { StandsStill S.Store self.old result self.new }
        ensures unharmed { LeavesNoTrace S.Store self.old result self.new }
        ensures failed { self.old.has_failed ≡ true → (result ≡ Err StoreFault) × (self.new ≡ self.old)
            × (H.failures_of shelf.new ≡ H.failures_of shelf.old) }
        ensures cause { result ≡ Err StoreFault → (self.new.has_failed ≡ true)
            ⊎ MoreFaults (H.failures_of shelf.old) (H.failures_of shelf.new) }
        ensures usable { ¬ IsFault result → self.new.has_failed ≡ self.old.has_failed }
        ensures rises { self.old.has_failed ≡ false → self.new.has_failed ≡ true
            → (H.failures_of shelf.new ≡ H.failures_of shelf.old)
            × ((result ≡ Err StoreFault) ⊎ IsAccepted S.Store request.now self.old self.new) }
        ensures shelf { H.failures_of shelf.old ≤ H.failures_of shelf.new }
        ensures unasked { self.old.has_failed ≡ true → shelf.new ≡ shelf.old }
    {
        if self.has_failed {
            return Err(Refusal::StoreFault);
        }
        match serve(
            &mut self.members,
            &mut self.strays,
            &mut self.known,
            &self.frame,
            &mut self.count,
            alloc,
            request,
            shelf,
        ) {
            Ok(reply) => {
                self.has_failed = is_store_fault(&reply);
                reply
            }
            Err(fault) => {
                self.has_failed = fault.is_lasting();
                Err(fault.refusal())
            }
        }
    }

    /// Carries out the requests of a list, one after the other, and gives a reply for each. Room
    /// for all replies is there before the first is carried out.
    ///
    /// # Errors
    ///
    /// Want of memory for the replies. No request was carried out then.
    pub fn run<H: Shelf<S>>(
        &mut self,
        alloc: Global,
        requests: &[Request],
        shelf: &mut H,
    ) -> Result<Vec<Result<Receipt, Refusal>>, OutOfMemory>
        ensures ran { IfOk result (λ replies. IsRun S.Store requests.now self.old replies.items self.new
            (H.failures_of shelf.old) (H.failures_of shelf.new)) }
        ensures uses { IfOk result (λ replies. IsRunWith S.Store H.asks H.takes H.failures_of requests.now self.old
            replies.items self.new
            (H.failures_of shelf.old) (H.failures_of shelf.new) shelf.old shelf.new) }
        ensures refused { OnErr result ((self.new ≡ self.old)
            × (H.failures_of shelf.new ≡ H.failures_of shelf.old)) }
        ensures unasked { OnErr result (shelf.new ≡ shelf.old) }
    {
        let mut replies = Vec::with_capacity(alloc, requests.len())?;
        for request in requests {
            let reply = self.apply(alloc, request, shelf);
            push_reserved(&mut replies, reply);
        }
        Ok(replies)
    }
}

/// Whether a reply tells that a store failed.
fn is_store_fault(reply: &Result<Receipt, Refusal>) -> bool
    ensures { IsTrue result ↔ (reply.now ≡ Err StoreFault) }
{
    match reply {
        Ok(_) => false,
        Err(why) => *why == Refusal::StoreFault,
    }
}
