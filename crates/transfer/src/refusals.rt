//! Why a transfer is refused.
ghost use Rattle.std.specs.Prelude.{◌≡◌};
ghost use Rattle.transfer.specs.Refusals.{refusal_of};

use package_tables::fault::Fault;
use sheet_types::refusal::Refusal;

/// How a fault of a package's store is told in a reply.
pub(crate) fn refusal_of(fault: Fault) -> Refusal
    ensures { result ≡ refusal_of fault }
{
    match fault {
        Fault::OutOfMemory => Refusal::OutOfMemory,
        Fault::StoreFault => Refusal::StoreFault,
    }
}
