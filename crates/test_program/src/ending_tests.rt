// Statuses and lines, as they were agreed on and judged by hand. What goes to standard output stands in the sessions
// too; what goes to standard error does here alone.
use crate::endings::{End, end_text};
use crate::worlds::passes;
use command_folder::endings::{DONE, Ending, FAILED, NO_MEMORY, OpenFault};
use command_words::statuses::{Failure, Outcome, What};
use opening_faults::faults::RecoverFault;
use package_tables::fault::Fault;
use request_csv::lists::ReadFault;
use sheet_types::refusal::Refusal;
use std::alloc::Global;
use store_folder::fault::FolderFault;
use test_values::Checked;
use uuid::Uuid;
use views::endings::Ending as ViewEnding;

fn wrong(alloc: Global, cases: &[(End, &str)]) -> Result<String, Fault> {
    let mut checked = Checked::new(alloc);
    for case in cases {
        match end_text(alloc, &case.0) {
            Ok(text) => checked.is(text.as_str(), case.1),
            Err(_) => checked.is("no memory", case.1),
        }
    }
    Ok(String::from_str(alloc, checked.wrong())?)
}

// The package 7 is not there; and what stands in the way of it, or of the folder.
fn missing() -> OpenFault {
    OpenFault::Fault(RecoverFault::MissingPackage(Uuid::from_u128(7)))
}

fn busy() -> OpenFault {
    OpenFault::from(FolderFault::PackageHeld(Uuid::from_u128(7)))
}

fn held() -> OpenFault {
    OpenFault::from(FolderFault::FolderHeld)
}

fn of_link() -> Ending {
    Ending::Unopened(OpenFault::from(FolderFault::Link(Uuid::from_u128(7))))
}

fn of_second_name() -> Ending {
    Ending::Unopened(OpenFault::from(FolderFault::SecondName(Uuid::from_u128(7))))
}

fn of_unsettled() -> Ending {
    Ending::Unopened(OpenFault::from(FolderFault::NameUnsettled(Uuid::from_u128(7))))
}

fn of(fault: RecoverFault) -> Ending {
    Ending::Unopened(OpenFault::Fault(fault))
}

fn at(fault: RecoverFault, number: u64) -> OpenFault {
    OpenFault::Numbered(fault, number)
}

// The same faults where a receipt names what they are of, and one that no receipt names.
#[test]
fn a_fault_is_told_with_its_number(rt: HostRuntime) {
    let seven = Uuid::from_u128(7);
    let cases = [
        (
            End::Command(Ending::Unopened(at(RecoverFault::MissingPackage(seven), 8))),
            "3 |store: MissingPackage\n|package 00000000-0000-0000-0000-000000000007 is named by open split 8 and has no file",
        ),
        (
            End::Command(Ending::Faulted(at(RecoverFault::MissingPackage(seven), 8))),
            "3 MissingPackage\n||package 00000000-0000-0000-0000-000000000007 is named by open split 8 and has no file",
        ),
        (
            End::Command(Ending::Unopened(at(RecoverFault::TwoCopies(seven), 1000000000))),
            "3 |store: TwoCopies\n|package 00000000-0000-0000-0000-000000000007 of open split 1000000000 is there twice",
        ),
        (
            End::Command(Ending::Unopened(at(RecoverFault::ForeignFrame(seven), 12))),
            "3 |store: ForeignFrame\n|package 00000000-0000-0000-0000-000000000007 of open split 12 has not the archive's frame, or is not one level below its lender",
        ),
        (
            End::Command(Ending::Unopened(at(RecoverFault::Altered(seven), 4))),
            "3 |store: Altered\n|item 00000000-0000-0000-0000-000000000007 has not the content that its receipt 4 names",
        ),
        (
            End::Command(Ending::Unopened(at(RecoverFault::OutOfAccount, 4))),
            "3 |store: OutOfAccount\n|the receipts do not add up to what the packages hold",
        ),
    ];
    passes(&rt, wrong(rt.alloc(), cases.as_slice()));
}

// Of a rehearsal, a command and a view.
#[test]
fn each_ending_has_its_status_and_its_lines(rt: HostRuntime) {
    let list = Outcome::Refused(What::BadList);
    let no_memory = Outcome::Stopped(Failure::OutOfMemory);
    let of_busy = ViewEnding::Usual(Ending::Unopened(busy()));
    let of_view = ViewEnding::Usual(Ending::Unopened(missing()));
    let cases = [
        (End::Of(Outcome::Done), "0 ||"),
        (End::Of(list), "1 refused: list\n||"),
        (End::Of(no_memory), "3 |store: OutOfMemory\n|"),
        (End::Command(DONE), "0 ||"),
        (
            End::Command(Ending::Declined(Refusal::NothingToLend)),
            "1 ||refusal 17 NothingToLend",
        ),
        (
            End::Command(Ending::Declined(Refusal::CutLink(Uuid::from_u128(7)))),
            "1 ||refusal 18 CutLink: item 00000000-0000-0000-0000-000000000007 is linked with an item that stays",
        ),
        (
            End::Command(Ending::Declined(Refusal::Stale(41))),
            "1 ||refusal 20 Stale: the last receipt is 41",
        ),
        (
            End::Command(Ending::Declined(Refusal::LoanOpen(Uuid::from_u128(7)))),
            "1 ||refusal 21 LoanOpen: loan 00000000-0000-0000-0000-000000000007 is not home",
        ),
        (
            End::Command(Ending::Declined(Refusal::Collides(Uuid::from_u128(7)))),
            "1 ||refusal 22 Collides: the place of tile 00000000-0000-0000-0000-000000000007 is taken",
        ),
        (
            End::Command(Ending::RecordDeclined(17, Refusal::LoanOpen(Uuid::from_u128(7)))),
            "0 ||record 17: refusal 21 LoanOpen: loan 00000000-0000-0000-0000-000000000007 is not home",
        ),
        (
            End::Command(Ending::Unlisted(ReadFault::Record(17))),
            "1 refused: list\n||list: record 17 is no request",
        ),
        (
            End::Command(Ending::Unlisted(ReadFault::Header)),
            "1 refused: list\n||list: the first record is not the names of the columns",
        ),
        (
            End::Command(of(RecoverFault::Altered(Uuid::from_u128(7)))),
            "3 |store: Altered\n|item 00000000-0000-0000-0000-000000000007 has not the content that its receipt names",
        ),
        (
            End::Command(of(RecoverFault::OutOfAccount)),
            "3 |store: OutOfAccount\n|the receipts do not add up to what the packages hold",
        ),
        (
            End::Command(Ending::Unopened(OpenFault::from(FolderFault::PackageFailed(
                Uuid::from_u128(7),
            )))),
            "3 |store: StoreFault\n|00000000-0000-0000-0000-000000000007.gpkg cannot be opened, is no database, or too many files are open",
        ),
        (
            End::Command(Ending::Unopened(OpenFault::from(FolderFault::FolderUnread))),
            "3 |store: StoreFault\n|the folder is not there, or cannot be read and written",
        ),
        (End::Command(FAILED), "3 |store: StoreFault\n|"),
        (End::Command(NO_MEMORY), "3 |store: OutOfMemory\n|"),
        (
            End::Command(Ending::Unopened(missing())),
            "3 |store: MissingPackage\n|package 00000000-0000-0000-0000-000000000007 is named by an open split and has no file",
        ),
        (
            End::Command(Ending::Faulted(missing())),
            "3 MissingPackage\n||package 00000000-0000-0000-0000-000000000007 is named by an open split and has no file",
        ),
        (
            End::Command(Ending::Unopened(busy())),
            "3 |store: StoreFault\n|another process may hold the package 00000000-0000-0000-0000-000000000007",
        ),
        (
            End::Command(Ending::Faulted(busy())),
            "3 StoreFault\n||another process may hold the package 00000000-0000-0000-0000-000000000007",
        ),
        (
            End::Command(Ending::Unopened(held())),
            "3 |store: StoreFault\n|another process may hold the folder",
        ),
        (
            End::Command(of_link()),
            "3 |store: StoreFault\n|00000000-0000-0000-0000-000000000007.gpkg or its log is a symbolic link",
        ),
        (
            End::View(ViewEnding::Usual(of_second_name())),
            "3 |store: StoreFault\n|00000000-0000-0000-0000-000000000007.gpkg or its log has a second name",
        ),
        (
            End::Command(of_unsettled()),
            "3 |store: StoreFault\n|00000000-0000-0000-0000-000000000007.gpkg stands, but a power loss may take its name",
        ),
        (End::View(ViewEnding::NoSuchZoom), "1 refused: zoom\n||"),
        (
            End::View(of_busy),
            "3 |store: StoreFault\n|another process may hold the package 00000000-0000-0000-0000-000000000007",
        ),
        (
            End::View(ViewEnding::NoSuchIdentity),
            "1 refused: no such identity\n||",
        ),
        (
            End::View(of_view),
            "3 |store: MissingPackage\n|package 00000000-0000-0000-0000-000000000007 is named by an open split and has no file",
        ),
    ];
    passes(&rt, wrong(rt.alloc(), cases.as_slice()));
}
