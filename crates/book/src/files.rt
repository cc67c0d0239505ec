//! Table files into the book and out of it.
ghost use Rattle.std.specs.Prelude.{ℕ, List, map};
ghost use Rattle.table_files.specs.Grammar.{Values};
ghost use Rattle.table_files.specs.Tables.{Ahead, row_of};
ghost use Rattle.book.specs.Inner.{AllSure};

use super::books::{Book, MAX_ROWS, MAX_TABLES};
use super::refusals::Refusal;
use super::rows::{MAX_SURENESS, Row};
use table_files::{Place, Rows, TableFile};
use text::Writer;

/// The bytes that the file of a table never passes.
pub const FILE_ROOM: usize = 16_384;

// The record of a file's first row: record 1 is the header.
const FIRST_RECORD: usize = 2;

impl Book {
    ghost use Rattle.std.specs.Prelude.{◌≡◌, ◌+◌, ◌<◌, ◌≤◌, ◌++◌, length};
    ghost use Rattle.text.specs.Writers.{Wrote, room_of};
    ghost use Rattle.table_files.specs.Tables.{Opened};
    ghost use Rattle.book.specs.Books.{ledger, Obeys};
    ghost use Rattle.book.specs.Files.{LoadJudged, LoadsBack, file_of, table_file_verdict, write_verdict};
    ghost use Rattle.book.specs.Inner.{Fit, OpenWidth};
    ghost use Rattle.book.specs.Ledgers.{Ledger};
    ghost use Rattle.book.specs.Rows.{from_file};
    ghost use Rattle.book.specs.Rules.{Verdict, with_rows};

    /// Opens a table for a table file, adds its rows in file order, and answers the table's number.
    pub fn load(&mut self, file: &[u8]) -> Result<usize, Refusal>
        ensures judged { (v : Verdict ℕ Ledger) × LoadJudged (ledger self.old) file.now v × Obeys ledger v result self.old self.new }
        ensures one { (v w : Verdict ℕ Ledger) → LoadJudged (ledger self.old) file.now v → LoadJudged (ledger self.old) file.now w → v ≡ w }
    {
        self.add_file(table_files::read(file)?)
    }

    // Opens a table for a table file that was read, and adds its rows.
    fn add_file(&mut self, file: TableFile) -> Result<usize, Refusal>
        requires { (header : Values) × (rows : List Values) × Opened header rows file }
        ensures { (header : Values) (rows : List Values) → Opened header rows file.entry → Obeys ledger (table_file_verdict (ledger self.old) file.entry.width (map row_of rows)) result self.old self.new }
    {
        let table = self.widths().len();
        if table >= MAX_TABLES {
            return Err(Refusal::TablesUsedUp);
        }
        sure_rows(file.rows, file.width + 1)?;
        let left = MAX_ROWS - self.rows().len();
        if file.count > left {
            return Err(Refusal::RowsUsedUp(Place {
                record: FIRST_RECORD + left,
                field: 1,
            }));
        }
        self.add_table(file.width);
        self.add_rows(file.rows, table);
        Ok(table)
    }

    /// Writes the file of a table into lent bytes, of which 16,384 always suffice, and answers its length.
    pub fn write(&self, table: usize, out: &mut [u8]) -> Result<usize, Refusal>
        ensures wrote { Obeys (λ bytes. bytes) (write_verdict (ledger self.now) table out.old) result out.old out.new }
        ensures back { table < length (ledger self.now).widths → LoadsBack (ledger self.now) table }
    {
        let width = self.width(table)?;
        if out.len() < FILE_ROOM {
            return Err(Refusal::MemoryShort);
        }
        let mut writer = Writer::new(out);
        self.put_file(table, width, &mut writer);
        Ok(writer.place())
    }

    // Writes the file of a table: its header, and the rows that are not struck. The caller has shown that it fits.
    fn put_file(&self, table: usize, width: usize, writer: &mut Writer)
        requires open { OpenWidth (ledger self.now) table (Ok width) }
        requires room { writer.old.at + 16384 ≤ room_of writer.old }
        ensures { Wrote writer.old writer.new (file_of (ledger self.now) table) }
    {
        table_files::put_header(width, writer);
        for row in self.rows().iter().filter(|row| row.is_written(table)) {
            table_files::put_row(row.to_file(), width, writer);
        }
    }

    // Adds the rows of a file to a table. The caller has shown that they fit.
    fn add_rows(&mut self, rows: Rows, table: usize)
        requires { Fit (ledger self.old) table rows }
        ensures { (n : ℕ) (records : List Values) → Ahead n rows.entry records → ledger self.new ≡ with_rows (ledger self.old) ((ledger self.old).rows ++ map (from_file table) (map row_of records)) }
    {
        for row in rows {
            self.add_row(Row::from_file(table, row));
        }
    }
}

// Whether each row of a file is sure enough; else the first that is not.
fn sure_rows(mut rows: Rows, field: usize) -> Result<(), Refusal>
    ensures { (n : ℕ) (records : List Values) → Ahead n rows.entry records → AllSure 2 field (map row_of records) result }
{
    match rows.position(|row| u64::from(row.sureness) > MAX_SURENESS) {
        Some(number) => Err(Refusal::SurenessTooLarge(Place {
            record: number + FIRST_RECORD,
            field,
        })),
        None => Ok(()),
    }
}
