//! Table files: RFC 4180 texts whose first record is a header and whose other records are rows of numbers.
#![tactic(auto)]

ghost use Rattle.std.specs.Prelude.{◌≡◌, ℕ, ◌≤◌, length, List, MatchResult};
ghost use Rattle.std.specs.List.{AllByRecursion};
ghost use Rattle.table_files.specs.Grammar.{Values};
ghost use Rattle.table_files.specs.Places.{RowCount, RowTested, RowsChecked};
ghost use Rattle.table_files.specs.Tables.{Answered, Says, rest_of};

mod fault;
mod fields;
mod reader;
mod records;
mod rows;
#[cfg(test)]
mod tests;
mod writing;

pub use fault::{Fault, Place};
use reader::check;
use records::{RecordPlaces, Records};
pub use rows::{Row, Rows};
pub use writing::{put_header, put_row};

/// A text that is a table file: how many cells a row has, how many rows there are, and a walk over them all.
#[derive(Clone, Copy, PartialEq, Eq, Debug)]
pub struct TableFile<'a> {
    pub width: usize,
    pub count: usize,
    pub rows: Rows<'a>,
}

// The number of rows, if each has so many fields; or the place of the first that has not.
fn count_rows(rows: Records, fields: usize) -> Result<usize, Place>
    ensures { (all : List Values) → Says (rest_of rows.entry) all → RowCount fields all result }
{
    rows.judge(
        move |row: RecordPlaces| -> Result<(), usize>
            ensures { MatchResult result (λ _. row.entry.fields ≡ fields) (λ f. (row.entry.fields ≡ fields → ⊥) × (f ≡ row.entry.fields)) }
        {
            if row.fields == fields {
                Ok(())
            } else {
                Err(row.fields)
            }
        },
    )
}

// The number of rows, if each field of each keeps its rule; or the place of the first field that does not.
fn check_rows(rows: Records) -> Result<usize, Place>
    ensures { (all : List Values) → Says (rest_of rows.entry) all → AllByRecursion (λ values. length values ≤ 5) all → RowsChecked all result }
{
    rows.judge(
        |row: RecordPlaces| -> Result<(), usize>
            ensures { RowTested row.entry result }
        { row.row().map(|_| ()) },
    )
}

/// Reads a text as a table file, or says what is wrong with it: the first of the faults, each looked for in the whole
/// text before the next.
pub fn read(text: &[u8]) -> Result<TableFile<'_>, Fault>
    ensures { Answered text.now result }
{
    if text.len() > 65_536 {
        return Err(Fault::TooLong);
    }
    check(text).map_err(Fault::Grammar)?;
    let mut records = Records::new(text);
    let header = records.record();
    let width = header.width().ok_or(Fault::Header(Place {
        record: 1,
        field: header.fields,
    }))?;
    let count = count_rows(records, header.fields).map_err(Fault::FieldCount)?;
    check_rows(records).map_err(Fault::Field)?;
    Ok(TableFile {
        width,
        count,
        rows: Rows::new(records),
    })
}
