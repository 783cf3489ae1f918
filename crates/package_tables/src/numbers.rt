//! Answers of which numbers alone are wanted: their rows have one column, so that no data comes along.
ghost use Rattle.std.specs.Prelude.{◌≡◌, ◌≢◌, ℤ, List, map, not, length, ◌==◌, IfOk, IfErr, IsOk};
ghost use Rattle.std.specs.Prelude.{IsOkAnd, IsPermutation};
ghost use Rattle.std.specs.List.{AllByRecursion};
ghost use Rattle.sqlite_trees.specs.Tree.{IsAscending};
ghost use Rattle.package_tables.specs.Shown.{AreTexts, InSize, AreInSize, number_shown};
ghost use Rattle.package_tables.specs.Faults.{fault_of};
ghost use Rattle.package_tables.specs.declared.fault.Fault.TheVariants.{StoreFault};

use crate::fault::Fault;
use crate::from_row::{FromRow, all_of, number_at};
use sqlite::{Error, Row};
use std::alloc::Global;

impl FromRow for i64 {
    ghost use Rattle.package_tables.specs.Shown.{number_shown};

    ghost shown = { number_shown };

    fn from_row(row: &Row) -> Result<i64, Fault> {
        if row.column_count() != 1 {
            return Err(Fault::StoreFault);
        }
        number_at(row, 0)
    }
}

/// Numbers in the order in which a table has them: those that no row of a package has, below 0, by their size too.
fn in_size(mut numbers: Vec<i64>) -> Vec<i64>
    ensures same { IsPermutation numbers.items result.items }
    ensures order { IsAscending InSize result.items }
{
    numbers.sort_unstable_by_key(|number| (number.unsigned_abs(), *number));
    numbers
}

/// The numbers that the rows of an answer show, in the order in which a table has them.
pub(crate) fn numbers_of(alloc: Global, answer: Result<Vec<Row>, Error>) -> Result<Vec<i64>, Fault>
    ensures numbers { IfOk result (λ numbers. IsOkAnd answer (λ rows. AreInSize rows.items numbers.items)) }
    ensures failed { IfErr answer (λ error. result ≡ Err (fault_of error)) }
    ensures none { IfOk answer (λ rows. IfErr result (λ fault. fault ≡ StoreFault
        → AllByRecursion AreTexts rows.items → (numbers : List ℤ) → rows.items ≢ map number_shown numbers)) }
{
    let numbers = all_of(alloc, answer)?;
    Ok(in_size(numbers))
}

/// Whether an answer has a row.
pub(crate) fn has_any(answer: Result<Vec<Row>, Error>) -> Result<bool, Fault>
    ensures any { IfOk result (λ any. IsOkAnd answer (λ rows. any ≡ not (length rows.items == 0))) }
    ensures failed { IfErr answer (λ error. result ≡ Err (fault_of error)) }
    ensures told { IfOk answer (λ _. IsOk result) }
{
    let rows = answer?;
    Ok(!rows.is_empty())
}
