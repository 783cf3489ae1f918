//! Which name a record is.
ghost use Rattle.std.specs.Prelude.{IfOk, IfSome, IfNone};
ghost use Rattle.csv.specs.Records.{fields_of};
ghost use Rattle.view_names.specs.Named.{IsNamed};
ghost use Rattle.view_report.specs.declared.registers.Name.{Name};

use crate::columns::{NAME, UUID};
use csv::StringRecord;
use request_csv::fields::uuid_at;
use sheet_types::collections::Text;
use sheet_types::error::OutOfMemory;
use std::alloc::Global;
use view_report::registers::Name;

/// The name that a record is, if it is one.
pub(crate) fn name_of(alloc: Global, row: &StringRecord) -> Result<Option<Name>, OutOfMemory>
    ensures some { IfOk result (λ found. IfSome found (λ name. IsNamed (fields_of row.now) name)) }
    ensures none { IfOk result (λ found. IfNone found ((name : Name) → ¬ IsNamed (fields_of row.now) name)) }
{
    let Some(uuid) = uuid_at(row, UUID) else {
        return Ok(None);
    };
    let Some(text) = row.get(NAME) else {
        return Ok(None);
    };
    Ok(Some(Name {
        uuid,
        name: Text::from_string(text.to_string(alloc)?),
    }))
}
