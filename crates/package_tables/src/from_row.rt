//! From the rows that a SELECT answers to values. Crates that read stores of any form stand on it too.
ghost use Rattle.std.specs.Prelude.{◌≡◌, ◌≢◌, ℕ, ℤ, List, [], map, slice_get, IfOk, IfErr, IsOkAnd};
ghost use Rattle.std.specs.Prelude.{MatchOption, IsUtf8};
ghost use Rattle.std.specs.List.{AllByRecursion};
ghost use Rattle.sqlite.specs.Order.{column};
ghost use Rattle.sqlite.specs.declared.types.Value.TheVariants.{Int, Text as StoredText, Blob};
ghost use Rattle.package_tables.specs.Shown.{BeginsWith, AreTexts};
ghost use Rattle.package_tables.specs.Faults.{fault_of};
ghost use Rattle.package_tables.specs.declared.fault.Fault.TheVariants.{StoreFault};

use crate::fault::Fault;
use sheet_types::collections::{Bytes, Text};
use sqlite::{Error, Row};
use std::alloc::Global;

/// A value that a row of a table stands for, a field a column.
// Numbers are read first: a text that was read is dropped at each exit that follows.
// `tools/decoding.py` writes the answers.
pub trait FromRow: Drop {
    ghost use Rattle.sqlite.specs.Order.{Row as Shown};

    ghost shown: { Self → Shown };

    fn from_row(row: &Row) -> Result<Self, Fault>
        ensures value { IfOk result (λ value. row.now ≡ shown value) }
        ensures none { IfErr result (λ fault. fault ≡ StoreFault → AreTexts row.now → (value : Self)
            → row.now ≢ shown value) };
}

/// The number in a column.
pub(crate) fn number_at(row: &Row, at: usize) -> Result<i64, Fault>
    ensures number { IfOk result (λ number. column row.now at ≡ Int number) }
    ensures none { IfErr result (λ fault. fault ≡ StoreFault → (number : ℤ)
        → column row.now at ≢ Int number) }
{
    Ok(row.get(at)?)
}

/// The text in a column.
pub(crate) fn text_at(row: &Row, at: usize) -> Result<Text, Fault>
    ensures text { IfOk result (λ text. column row.now at ≡ StoredText text) }
    ensures none { IfErr result (λ fault. fault ≡ StoreFault → (text : List ℕ) → IsUtf8 text
        → column row.now at ≢ StoredText text) }
{
    Ok(Text::from_string(row.get(at)?))
}

/// The bytes in a column.
pub(crate) fn bytes_at(row: &Row, at: usize) -> Result<Bytes, Fault>
    ensures bytes { IfOk result (λ bytes. column row.now at ≡ Blob bytes) }
    ensures none { IfErr result (λ fault. fault ≡ StoreFault → (bytes : List ℕ)
        → column row.now at ≢ Blob bytes) }
{
    Ok(Bytes::from_vec(row.get(at)?))
}

/// Rows as values. Each row goes as soon as its value is made, so memory holds one of the two.
fn values_of<T: FromRow>(alloc: Global, rows: Vec<Row>) -> Result<Vec<T>, Fault>
    ensures values { IfOk result (λ values. rows.items ≡ map T.shown values.items) }
    ensures none { IfErr result (λ fault. fault ≡ StoreFault
        → AllByRecursion AreTexts rows.items → (values : List T) → rows.items ≢ map T.shown values) }
{
    let mut values = Vec::new(alloc);
    for row in rows {
        values.push(T::from_row(&row)?)?;
    }
    Ok(values)
}

/// All rows of an answer as values.
pub fn all_of<T: FromRow>(alloc: Global, answer: Result<Vec<Row>, Error>) -> Result<Vec<T>, Fault>
    ensures values { IfOk result (λ values. IsOkAnd answer (λ rows. rows.items ≡ map T.shown values.items)) }
    ensures failed { IfErr answer (λ error. result ≡ Err (fault_of error)) }
    ensures none { IfOk answer (λ rows. IfErr result (λ fault. fault ≡ StoreFault
        → AllByRecursion AreTexts rows.items → (values : List T) → rows.items ≢ map T.shown values)) }
{
    let rows = answer?;
    values_of(alloc, rows)
}

/// The first row of an answer as a value, where there is one.
pub fn first_of<T: FromRow>(answer: Result<Vec<Row>, Error>) -> Result<Option<T>, Fault>
    ensures first { IfOk result (λ first. IsOkAnd answer (λ rows. MatchOption first (rows.items ≡ [])
        (λ value. slice_get rows.items 0 ≡ Some (T.shown value)))) }
    ensures failed { IfErr answer (λ error. result ≡ Err (fault_of error)) }
    ensures none { IfOk answer (λ rows. IfErr result (λ fault. MatchOption (slice_get rows.items 0) ⊥
        (λ row. fault ≡ StoreFault → AreTexts row → (value : T) → row ≢ T.shown value))) }
{
    let rows = answer?;
    match rows.first() {
        None => Ok(None),
        Some(row) => Ok(Some(T::from_row(row)?)),
    }
}

/// The number that the first row of an answer begins with, where there is one.
pub(crate) fn number_of(answer: Result<Vec<Row>, Error>) -> Result<Option<i64>, Fault>
    ensures number { IfOk result (λ number. IsOkAnd answer (λ rows. BeginsWith rows.items number)) }
    ensures failed { IfErr answer (λ error. result ≡ Err (fault_of error)) }
    ensures none { IfOk answer (λ rows. IfErr result (λ fault. MatchOption (slice_get rows.items 0) ⊥
        (λ row. fault ≡ StoreFault → (number : ℤ) → column row 0 ≢ Int number))) }
{
    let rows = answer?;
    match rows.first() {
        None => Ok(None),
        Some(row) => Ok(Some(number_at(row, 0)?)),
    }
}
