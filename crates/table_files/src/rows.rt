//! The rows of a table file.
ghost use Rattle.std.specs.Prelude.{◌≡◌, ℕ, List};
ghost use Rattle.std.specs.Iterator.{at_most};

use super::records::Records;

/// The numbers of a row: its cells, 0 past the table's width, and its sureness.
#[derive(Clone, Copy, PartialEq, Eq, Debug)]
pub struct Row {
    // Four places and no list: the width is the table's, and stands there once.
    pub cells: [u32; 4],
    pub sureness: u32,
}

/// A walk over the rows of a table file, from one on.
#[derive(Clone, Copy, PartialEq, Eq, Debug)]
pub struct Rows<'a> {
    records: Records<'a>,
}

impl<'a> Rows<'a> {
    // A walk over all records that a walk has before it.
    pub(super) fn new(records: Records<'a>) -> Rows<'a>
        ensures { result.records ≡ records.entry }
    {
        Rows { records }
    }
}

impl Iterator for Rows<'_> {
    ghost use Rattle.table_files.specs.Grammar.{Values};
    ghost use Rattle.table_files.specs.Tables.{Ahead, Walked, bytes_left};

    type Item = Row;

    // The first row of those before the walk, which then has the others before it.
    ghost next_gives = { λ from answer to. (n : ℕ) (rows : List Values) → Ahead n from rows → Walked n rows answer to };

    ghost remaining = { λ walk. at_most (bytes_left walk) };

    fn next(&mut self) -> Option<Row> {
        self.records.next()?.row().ok()
    }
}
