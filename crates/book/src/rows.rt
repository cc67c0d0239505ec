//! A row of a table.

// The most columns of a table.
pub(super) const MAX_WIDTH: usize = 4;

// The highest sureness, in billionths.
pub(super) const MAX_SURENESS: u64 = 1_000_000_000;

/// A row: its table, four cell places (those past the table's width hold 0), its sureness in billionths, and whether it is struck
/// (out of all joins).
#[derive(Clone, Copy, PartialEq, Eq, Debug)]
pub struct Row {
    pub table: usize,
    // Four places and no list: the width is the table's, and stands there once.
    pub cells: [u32; 4],
    pub sureness: u64,
    pub struck: bool,
}

impl Row {
    ghost use Rattle.std.specs.Prelude.{◌≡◌, ◌^◌, ◌<◌, ◌≤◌, length};
    ghost use Rattle.book.specs.Files.{to_file, written?};
    ghost use Rattle.book.specs.Ledgers.{Small};
    ghost use Rattle.book.specs.Rows.{new_row, from_file};

    // What stands in a place whose row number is not given yet.
    pub(super) const VACANT: Row = Row {
        table: 0,
        cells: [0; 4],
        sureness: 0,
        struck: false,
    };

    // A row as it is first kept.
    pub(super) fn new(table: usize, cells: &[u32], sureness: u64) -> Row
        requires { length cells.now ≤ 4 }
        ensures { result ≡ new_row table cells.now sureness }
    {
        let mut places = [0; 4];
        places[..cells.len()].copy_from_slice(cells);
        Row {
            table,
            cells: places,
            sureness,
            struck: false,
        }
    }

    // A row of a file as a row of a table. It takes the table too, so it is no `From`.
    pub(super) fn from_file(table: usize, row: table_files::Row) -> Row
        ensures same { result ≡ from_file table row }
        ensures small { Small result }
        ensures four { length result.cells ≡ 4 }
    {
        let table_files::Row { cells, sureness } = row;
        Row {
            table,
            cells,
            sureness: u64::from(sureness),
            struck: false,
        }
    }

    // The row as a row of a file. A book's rows have a sureness of 32 bits, which it asks for: so it cannot fail, and is no `TryFrom`.
    pub(super) fn to_file(&self) -> table_files::Row
        requires { self.now.sureness < 2 ^ 32 }
        ensures { result ≡ to_file self.now }
    {
        table_files::Row {
            cells: self.cells,
            sureness: self.sureness as u32,
        }
    }

    // Whether the row is one of a table's, and not struck.
    pub(super) fn is_written(&self, table: usize) -> bool
        ensures { result ≡ written? table self.now }
    {
        self.table == table && !self.struck
    }
}
