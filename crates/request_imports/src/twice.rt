//! A request list that is read twice in place of being held: once to judge it, and once to carry it out.
ghost use Rattle.std.specs.Prelude.{◌≡◌, ◌<◌, ◌≤◌, ◌++◌, ◌∷◌, [], ℕ, List, Option, IfOk};
ghost use Rattle.std.specs.Prelude.{IfErr, length};
ghost use Rattle.std.specs.String.{string_capacity};
ghost use Rattle.sheet_types.specs.declared.command.Request.{Request};
ghost use Rattle.request_csv.specs.ListReading.{Stands};
ghost use Rattle.manifest_csv.specs.Imports.{IsReportedWith};
ghost use Rattle.request_imports.specs.Twice.{BreaksAt, Ends, ImportsOnce, ImportsTwice, ImportsTwiceWith, as_import};

use manifest_csv::importing::{ImportFault, end_of};
use manifest_csv::progress::Teller;
use manifest_csv::reports::{header_line, line_buffer, put_line};
use manifest_csv::sending::{WriteFault, send};
use request_csv::lists::ReadFault;
use request_csv::readers::{ListReader, judge_requests};
use request_csv::sources::ListSource;
use sheet_types::command::Request;
use sqlite::Alter;
use std::alloc::Global;
use std::io::Write;
use store_shelf::shelf::Shelf;
use world::world::World;

/// Why an import of a list that is read twice did not go through.
#[derive(Clone, Copy, PartialEq, Eq)]
pub enum TwiceFault {
    /// As of a list that is held. Where a list was not read, at the first reading or at its header
    /// at the second, nothing was carried out and nothing was written.
    Import(ImportFault),
    /// The second reading had fewer requests than the first, or more. So many were carried out, and
    /// their lines written.
    Changed(u64),
    /// The second reading met this fault. So many requests before it were carried out, and their lines written.
    Broken(u64, ReadFault),
}

impl From<ReadFault> for TwiceFault {
    ghost use Rattle.manifest_csv.specs.declared.importing.ImportFault.TheVariants.{Unread};
    ghost use Rattle.request_imports.specs.declared.twice.TwiceFault.TheVariants.{Import};

    ghost from_gives = { λ fault why. why ≡ Import (Unread fault) };

    fn from(fault: ReadFault) -> TwiceFault {
        TwiceFault::Import(ImportFault::Unread(fault))
    }
}

impl From<WriteFault> for TwiceFault {
    ghost use Rattle.manifest_csv.specs.declared.importing.ImportFault.TheVariants.{Unwritten};
    ghost use Rattle.request_imports.specs.declared.twice.TwiceFault.TheVariants.{Import};

    ghost from_gives = { λ fault why. why ≡ Import Unwritten };

    fn from(_fault: WriteFault) -> TwiceFault {
        TwiceFault::Import(ImportFault::Unwritten)
    }
}

/// The next request of a second reading, of which so many were carried out.
fn request_after<Q: ListSource + Drop>(
    alloc: Global,
    list: &mut ListReader<Q>,
    done: u64,
) -> Result<Request, TwiceFault>
    ensures request { IfOk result (λ request. (text : Option (List ℕ)) (before : List Request)
        → Stands Q.remaining text list.old before → Stands Q.remaining text list.new (before ++ request ∷ [])) }
    ensures breaks { IfErr result (BreaksAt done) }
    ensures fault { IfErr result (λ why. (count : ℕ) (text : Option (List ℕ)) (before : List Request)
        → done < count
        → length before ≡ done → Stands Q.remaining text list.old before → Ends text count before (Err why)) }
{
    match list.next_request(alloc) {
        Ok(Some(request)) => Ok(request),
        Ok(None) => Err(TwiceFault::Changed(done)),
        Err(fault) => Err(TwiceFault::Broken(done, fault)),
    }
}

/// Whether a second reading is at its end, after all requests that the first had.
fn check_end<Q: ListSource + Drop>(
    alloc: Global,
    list: &mut ListReader<Q>,
    done: u64,
) -> Result<(), TwiceFault>
    ensures breaks { IfErr result (BreaksAt done) }
    ensures ends { (text : Option (List ℕ)) (before : List Request) → length before ≡ done
        → Stands Q.remaining text list.old before → Ends text done before result }
{
    match list.next_request(alloc) {
        Ok(None) => Ok(()),
        Ok(Some(_more)) => Err(TwiceFault::Changed(done)),
        Err(fault) => Err(TwiceFault::Broken(done, fault)),
    }
}

/// Carries out so many requests of a reader in their order, and writes the line of each before the
/// next is read. The teller is told of each whose line was written.
fn report_read<S: Alter + Drop, H: Shelf<S>, Q: ListSource + Drop, W: Write, T: Teller>(
    alloc: Global,
    world: &mut World<S>,
    list: &mut ListReader<Q>,
    count: u64,
    shelf: &mut H,
    buffer: &mut String,
    writer: &mut W,
    teller: &mut T,
) -> Result<(), TwiceFault>
    requires room { 128 ≤ string_capacity buffer.old }
    ensures { (requests : List Request)
        × ((text : Option (List ℕ)) → Stands Q.remaining text list.old []
        → Ends text count requests result)
        × IsReportedWith S.Store H.asks H.takes H.failures_of count requests world.old world.new
        shelf.old shelf.new (W.contents writer.old) (W.contents writer.new)
        (T.told teller.old) (T.told teller.new) (as_import result) }
{
    for at in 0..count {
        let request = request_after(alloc, list, at)?;
        let reply = world.apply(alloc, &request, shelf);
        put_line(buffer, at + 1, request.id, &reply);
        send(writer, buffer.as_bytes())?;
        teller.tell(at + 1, count, &reply);
        if let Some(fault) = end_of(&reply) {
            return Err(TwiceFault::Import(ImportFault::Stopped(at + 1, fault)));
        }
    }
    check_end(alloc, list, count)
}

/// Carries out the request list of a reader and writes the report of it, as `import` does, of a
/// list that is read twice in place of being held: all of the first reader is judged before the
/// first request of the second is carried out. One request is in memory at a time.
///
/// # Errors
///
/// Those of `import`; a second reading that had another list than the first, or broke off.
pub fn import_twice<S: Alter + Drop, H: Shelf<S>, Q: ListSource + Drop, W: Write, T: Teller>(
    alloc: Global,
    world: &mut World<S>,
    shelf: &mut H,
    first: Q,
    second: Q,
    writer: &mut W,
    teller: &mut T,
) -> Result<(), TwiceFault>
    ensures imported { ImportsTwice S.Store (Q.remaining first) (Q.remaining second)
        world.old world.new (H.failures_of shelf.old) (H.failures_of shelf.new)
        writer.old writer.new (W.contents writer.old) (W.contents writer.new) result }
    ensures once { Q.remaining first ≡ Q.remaining second → ImportsOnce S.Store (Q.remaining first)
        world.old world.new (H.failures_of shelf.old) (H.failures_of shelf.new)
        writer.old writer.new (W.contents writer.old) (W.contents writer.new) result }
    ensures along { ImportsTwiceWith S.Store H.asks H.takes H.failures_of (Q.remaining first)
        (Q.remaining second) world.old world.new shelf.old shelf.new (W.contents writer.old)
        (W.contents writer.new) (T.told teller.old) (T.told teller.new) result }
{
    let count = judge_requests(alloc, first)?;
    let Ok(mut buffer) = line_buffer(alloc) else {
        return Err(TwiceFault::Import(ImportFault::Unread(ReadFault::Memory)));
    };
    let mut list = ListReader::open(alloc, second)?;
    send(writer, header_line().as_bytes())?;
    report_read(
        alloc,
        world,
        &mut list,
        count,
        shelf,
        &mut buffer,
        writer,
        teller,
    )
}
