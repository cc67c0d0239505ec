//! The book: what it holds, and the calls that change it.
ghost use Rattle.std.specs.Prelude.{All};
ghost use Rattle.book.specs.Ledgers.{Wide, LawfulRow, VacantBeyond};
ghost use Rattle.lists.specs.Items.{items_of};

use super::refusals::{NOWHERE, Refusal};
use super::rows::{MAX_SURENESS, MAX_WIDTH, Row};
use lists::FixedList;

// How many tables a book can have.
pub(super) const MAX_TABLES: usize = 8;

// How many rows a book can be given.
pub(super) const MAX_ROWS: usize = 256;

/// Up to 8 tables and 256 rows. Rows are numbered from 0 in the order in which they come.
#[derive(Drop)]
pub struct Book {
    // The widths of the open tables, by number.
    widths: FixedList<usize, MAX_TABLES>,
    // The rows given, by number.
    rows: FixedList<Row, MAX_ROWS>,
    ghost wide: { All Wide (items_of widths) },
    ghost lawful: { All (LawfulRow (items_of widths)) (items_of rows) },
    ghost vacant: { VacantBeyond widths rows },
}

impl Book {
    ghost use Rattle.std.specs.Prelude.{◌≡◌, ◌<◌, [], ◌∷◌, ◌++◌, length, slice_set};
    ghost use Rattle.book.specs.Books.{ledger, Obeys};
    ghost use Rattle.book.specs.Inner.{Changeable, OpenWidth};
    ghost use Rattle.book.specs.Ledgers.{empty};
    ghost use Rattle.book.specs.Rules.{with_table, with_rows, table_verdict, row_verdict, reweigh_verdict, strike_verdict};

    /// A new book: 256 vacant row places and no table.
    pub fn new() -> Book
        ensures { ledger result ≡ empty }
    {
        Book {
            widths: FixedList::new(0),
            rows: FixedList::over(&[Row::VACANT; MAX_ROWS]),
        }
    }

    /// The widths of the open tables, by number.
    pub fn widths(&self) -> &[usize]
        ensures { result.now ≡ (ledger self.now).widths }
    {
        self.widths.as_slice()
    }

    /// The rows given so far, by number, the struck ones among them.
    pub fn rows(&self) -> &[Row]
        ensures { result.now ≡ (ledger self.now).rows }
    {
        self.rows.as_slice()
    }

    /// Opens the next table, and answers its number.
    pub fn table(&mut self, width: usize) -> Result<usize, Refusal>
        ensures { Obeys ledger (table_verdict (ledger self.old) width) result self.old self.new }
    {
        if width < 1 || width > MAX_WIDTH {
            return Err(Refusal::WidthOutOfRange);
        }
        let number = self.widths().len();
        if number >= MAX_TABLES {
            return Err(Refusal::TablesUsedUp);
        }
        self.add_table(width);
        Ok(number)
    }

    /// Adds a row to an open table, and answers its number. Rows are numbered over all tables.
    pub fn row(&mut self, table: usize, cells: &[u32], sureness: u64) -> Result<usize, Refusal>
        ensures { Obeys ledger (row_verdict (ledger self.old) table cells.now sureness) result self.old self.new }
    {
        let width = self.width(table)?;
        if cells.len() != width {
            return Err(Refusal::CellsNotWidth);
        }
        if sureness > MAX_SURENESS {
            return Err(Refusal::SurenessTooLarge(NOWHERE));
        }
        let number = self.rows().len();
        if number >= MAX_ROWS {
            return Err(Refusal::RowsUsedUp(NOWHERE));
        }
        self.add_row(Row::new(table, cells, sureness));
        Ok(number)
    }

    /// Gives a row a new sureness.
    pub fn reweigh(&mut self, number: usize, sureness: u64) -> Result<(), Refusal>
        ensures { Obeys ledger (reweigh_verdict (ledger self.old) number sureness) result self.old self.new }
    {
        let row = self.unstruck(number)?;
        if sureness > MAX_SURENESS {
            return Err(Refusal::SurenessTooLarge(NOWHERE));
        }
        self.replace(number, Row { sureness, ..row });
        Ok(())
    }

    /// Takes a row out of all joins. Its number is never given again.
    pub fn strike(&mut self, number: usize) -> Result<(), Refusal>
        ensures { Obeys ledger (strike_verdict (ledger self.old) number) result self.old self.new }
    {
        let row = self.unstruck(number)?;
        self.replace(
            number,
            Row {
                struck: true,
                ..row
            },
        );
        Ok(())
    }

    // The width of a table, if it is open.
    pub(super) fn width(&self, table: usize) -> Result<usize, Refusal>
        ensures { OpenWidth (ledger self.now) table result }
    {
        self.widths()
            .get(table)
            .copied()
            .ok_or(Refusal::TableNotOpen)
    }

    // The row with a number, if it may be changed.
    fn unstruck(&self, number: usize) -> Result<Row, Refusal>
        ensures { Changeable (ledger self.now) number result }
    {
        match self.rows().get(number) {
            None => Err(Refusal::NoSuchRow),
            Some(row) if row.struck => Err(Refusal::RowStruck),
            Some(row) => Ok(*row),
        }
    }

    // Gives a table the next number.
    pub(super) fn add_table(&mut self, width: usize)
        requires room { length (ledger self.old).widths < 8 }
        requires lawful { Wide width }
        ensures { ledger self.new ≡ with_table (ledger self.old) width }
    {
        self.widths.push(width);
    }

    // Gives a row the next number.
    pub(super) fn add_row(&mut self, row: Row)
        requires room { length (ledger self.old).rows < 256 }
        requires lawful { LawfulRow (ledger self.old).widths row }
        ensures { ledger self.new ≡ with_rows (ledger self.old) ((ledger self.old).rows ++ (row ∷ [])) }
    {
        self.rows.push(row);
    }

    // Puts a row in the place of one that was given.
    fn replace(&mut self, number: usize, row: Row)
        requires given { number < length (ledger self.old).rows }
        requires lawful { LawfulRow (ledger self.old).widths row }
        ensures { ledger self.new ≡ with_rows (ledger self.old) (slice_set (ledger self.old).rows number row) }
    {
        self.rows.set(number, row);
    }
}
